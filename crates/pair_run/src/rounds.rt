//! The entries of a schedule.
ghost use Rattle.std.specs.Prelude.{◌≡◌, ℕ, ◌+◌, OnOk};
ghost use Rattle.alp_io.specs.Count.{HasCause};
ghost use Rattle.radio_link.specs.declared.entry.Entry.TheVariants.{StepsOfA, StepsOfB, Rounds};
ghost use Rattle.pair_run.specs.Actions.{PacketToB, AcknowledgementToA, actions_of, one_round};
ghost use Rattle.pair_run.specs.Sides.{IsGoingOn, HasRoomFor, most_steps, AreDone, IsBroughtIn};

use crate::sides::Sides;
use alp_io::Failed;
use buffered_sink::Holds;
use radio_link::Entry;

// A round: a step of A, one of B, then the newest packet and the newest acknowledgement.
fn make_round<S: Holds>(sides: &mut Sides<'_, '_, '_>, sink: &mut S) -> Result<(), Failed>
    requires going { IsGoingOn sides.old }
    requires room { HasRoomFor sides.old 1 }
    ensures going { OnOk result (IsGoingOn sides.new) }
    ensures room { OnOk result ((n : ℕ) → HasRoomFor sides.old (n + 1) → HasRoomFor sides.new n) }
    ensures done { AreDone one_round sides.old (S.contents sink.old) (S.contents sink.new) result sides.new }
    ensures cause { HasCause (S.faults sink.old) (S.faults sink.new) result }
{
    if sides.is_full() {
        return Ok(());
    }
    sides.step_a(sink)?;
    sides.step_b(sink)?;
    if sides.is_full() {
        return Ok(());
    }
    sides.bring_newest_packet();
    sides.bring_newest_ack();
    Ok(())
}

// So many steps of A.
fn make_steps_of_a<S: Holds>(
    count: u32,
    sides: &mut Sides<'_, '_, '_>,
    sink: &mut S,
) -> Result<(), Failed>
    requires going { IsGoingOn sides.old }
    requires room { HasRoomFor sides.old count }
    ensures going { OnOk result (IsGoingOn sides.new) }
    ensures room { OnOk result ((n : ℕ) → HasRoomFor sides.old (n + count) → HasRoomFor sides.new n) }
    ensures done { AreDone (actions_of (StepsOfA count)) sides.old (S.contents sink.old) (S.contents sink.new) result sides.new }
    ensures cause { HasCause (S.faults sink.old) (S.faults sink.new) result }
{
    for _ in 0..count {
        if sides.is_full() {
            return Ok(());
        }
        if sides.a.has_ended() {
            return Ok(());
        }
        sides.step_a(sink)?;
    }
    Ok(())
}

// So many steps of B.
fn make_steps_of_b<S: Holds>(
    count: u32,
    sides: &mut Sides<'_, '_, '_>,
    sink: &mut S,
) -> Result<(), Failed>
    requires going { IsGoingOn sides.old }
    requires room { HasRoomFor sides.old count }
    ensures going { OnOk result (IsGoingOn sides.new) }
    ensures room { OnOk result ((n : ℕ) → HasRoomFor sides.old (n + count) → HasRoomFor sides.new n) }
    ensures done { AreDone (actions_of (StepsOfB count)) sides.old (S.contents sink.old) (S.contents sink.new) result sides.new }
    ensures cause { HasCause (S.faults sink.old) (S.faults sink.new) result }
{
    for _ in 0..count {
        if sides.is_full() {
            return Ok(());
        }
        if sides.b.has_ended() {
            return Ok(());
        }
        sides.step_b(sink)?;
    }
    Ok(())
}

// So many rounds. Where both runs have ended, no further one writes anything.
fn make_rounds<S: Holds>(
    count: u32,
    sides: &mut Sides<'_, '_, '_>,
    sink: &mut S,
) -> Result<(), Failed>
    requires going { IsGoingOn sides.old }
    requires room { HasRoomFor sides.old count }
    ensures going { OnOk result (IsGoingOn sides.new) }
    ensures room { OnOk result ((n : ℕ) → HasRoomFor sides.old (n + count) → HasRoomFor sides.new n) }
    ensures done { AreDone (actions_of (Rounds count)) sides.old (S.contents sink.old) (S.contents sink.new) result sides.new }
    ensures cause { HasCause (S.faults sink.old) (S.faults sink.new) result }
{
    for _ in 0..count {
        if sides.is_full() {
            return Ok(());
        }
        if sides.have_ended() {
            return Ok(());
        }
        make_round(sides, sink)?;
    }
    Ok(())
}

// The packet of this place is brought, unless B has accepted all words that it may.
fn bring_packet(place: u32, sides: &mut Sides<'_, '_, '_>)
    requires { IsGoingOn sides.old }
    ensures going { IsGoingOn sides.new }
    ensures room { (n : ℕ) → HasRoomFor sides.old n → HasRoomFor sides.new n }
    ensures done { IsBroughtIn (PacketToB place) sides.old sides.new }
{
    if sides.is_full() {
        return;
    }
    sides.bring_packet(place);
}

// The same with an acknowledgement.
fn bring_ack(place: u32, sides: &mut Sides<'_, '_, '_>)
    requires { IsGoingOn sides.old }
    ensures going { IsGoingOn sides.new }
    ensures room { (n : ℕ) → HasRoomFor sides.old n → HasRoomFor sides.new n }
    ensures done { IsBroughtIn (AcknowledgementToA place) sides.old sides.new }
{
    if sides.is_full() {
        return;
    }
    sides.bring_ack(place);
}

/// What an entry has done.
pub fn make_entry<S: Holds>(
    entry: &Entry,
    sides: &mut Sides<'_, '_, '_>,
    sink: &mut S,
) -> Result<(), Failed>
    requires going { IsGoingOn sides.old }
    requires room { HasRoomFor sides.old most_steps }
    ensures going { OnOk result (IsGoingOn sides.new) }
    ensures room { OnOk result ((n : ℕ) → HasRoomFor sides.old (n + most_steps) → HasRoomFor sides.new n) }
    ensures done { AreDone (actions_of entry.now) sides.old (S.contents sink.old) (S.contents sink.new) result sides.new }
    ensures cause { HasCause (S.faults sink.old) (S.faults sink.new) result }
{
    match *entry {
        Entry::StepsOfA(count) => make_steps_of_a(count, sides, sink),
        Entry::StepsOfB(count) => make_steps_of_b(count, sides, sink),
        Entry::BringPacket(place) => {
            bring_packet(place, sides);
            Ok(())
        }
        Entry::BringAcknowledgement(place) => {
            bring_ack(place, sides);
            Ok(())
        }
        Entry::Rounds(count) => make_rounds(count, sides, sink),
    }
}

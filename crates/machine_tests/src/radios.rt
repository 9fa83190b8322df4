//! The two sides of a radio: every access to their ports on three boards, and what is brought.
ghost use Rattle.std.specs.Prelude.{◌≤◌, length};

use fram_board::{Board, Heard, Stepped};
use image_text::Image;
use msp_isa::{IndexRegister, Reg};
use msp_step::Stop;
use std::alloc::{AllocError, Global};
use std::process::Abort;
use std::test::Fail;

const R4: Reg = Reg::Index(IndexRegister::R4);

const R5: Reg = Reg::Index(IndexRegister::R5);

/// What a board has of a radio.
#[derive(Clone, Copy)]
enum Side {
    Alone,
    Sender,
    Listener,
}

/// An access to a port.
#[derive(Clone, Copy)]
enum Access {
    ReadWord,
    ReadByte,
    WriteWord,
    WriteByte,
}

/// A board of this side with these words from 0x4400 on, and the reset vector at their beginning; events go to the code at 0x4420.
fn board_of(alloc: Global, side: Side, words: &[u16]) -> Result<Board, AllocError>
    requires { length words.now ≤ 64 }
{
    let mut image = Image::blank(alloc)?;
    for i in 0..words.len() {
        image.set(0x4400 + 2 * i as u16, words[i]);
    }
    image.set(0xfff0, 0x4420);
    image.set(0xfffe, 0x4400);
    match side {
        Side::Alone => Board::new(alloc, &image, &[], &[]),
        Side::Sender => Board::new_sender(alloc, &image, &[]),
        Side::Listener => Board::new_listener(alloc, &image, &[]),
    }
}

/// One step of a board whose receiver heard few words.
fn step(rt: &impl Abort, board: &mut Board) -> Result<Stepped, Stop> {
    assert!(rt; board.accepted() < 1000 && board.repeats() < 1000);
    board.step()
}

fn plain(cycles: u32, wrote: Option<u16>) -> Result<Stepped, Stop> {
    Ok(Stepped {
        cycles,
        wrote,
        took: 0,
        accepted: None,
        heard: Heard::Nothing,
        sent: None,
    })
}

/// A word was written to a port, and this is sent.
fn sent(port: u16, packet: (u16, u16)) -> Result<Stepped, Stop> {
    Ok(Stepped {
        cycles: 5,
        wrote: Some(port),
        took: 0,
        accepted: None,
        heard: Heard::Nothing,
        sent: Some(packet),
    })
}

/// A word was written to OUTDATA, and the board's own receiver accepted it.
fn accepted(word: u16) -> Result<Stepped, Stop> {
    Ok(Stepped {
        cycles: 5,
        wrote: Some(0x0204),
        took: 0,
        accepted: Some(word),
        heard: Heard::Nothing,
        sent: None,
    })
}

/// A step that took this word from EVENT.
fn heard(cycles: u32, word: Option<u16>) -> Result<Stepped, Stop> {
    Ok(Stepped {
        cycles,
        wrote: None,
        took: 0,
        accepted: None,
        heard: Heard::Once(word),
        sent: None,
    })
}

/// The instruction of an access: `mov &port,r4`, `mov.b &port,r4`, `mov #7,&port` or `mov.b #1,&port`.
fn words_of(access: Access, port: u16) -> [u16; 3] {
    match access {
        Access::ReadWord => [0x4214, port, 0x4303],
        Access::ReadByte => [0x4254, port, 0x4303],
        Access::WriteWord => [0x40b2, 7, port],
        Access::WriteByte => [0x43d2, port, 0x4303],
    }
}

/// What the access makes of a board that was brought the acknowledgement 9, or the packet 5; and what R4 holds then.
fn wanted(side: Side, access: Access, port: u16) -> (Result<Stepped, Stop>, u16) {
    match (side, access, port) {
        (Side::Sender, Access::ReadWord, 0x0208) => (plain(3, None), 9),
        (Side::Listener, Access::ReadWord, 0x020a) => (plain(3, None), 5),
        (Side::Listener, Access::WriteWord, 0x020c) => (sent(0x020c, (7, 0)), 0),
        _ => {
            let fault = Stop::Bus {
                pc: 0x4400,
                address: port,
            };
            (Err(fault), 0)
        }
    }
}

// Each access to the ports ACKS, EVNUM and ACKOUT, on a lone board, a sender's and a listener's: all but three are bus faults.
#[test]
fn ports_of_a_radio(rt: HostRuntime) -> Result<(), Fail> {
    for side in [Side::Alone, Side::Sender, Side::Listener] {
        for port in [0x0208, 0x020a, 0x020c] {
            for access in [
                Access::ReadWord,
                Access::ReadByte,
                Access::WriteWord,
                Access::WriteByte,
            ] {
                let mut board = board_of(rt.alloc(), side, &words_of(access, port))?;
                board.bring_ack(9);
                board.bring_packet(5, 77);
                let (made, r4) = wanted(side, access, port);
                assert_eq!(rt; step(&rt, &mut board), made);
                assert_eq!(rt; board.cpu().reg(R4), r4);
            }
        }
    }
    Ok(())
}

// A sender's words are sent with the number in OUTNUM, and its own receiver hears none; the words of the others go to their own.
#[test]
fn words_are_sent_or_offered(rt: HostRuntime) -> Result<(), Fail> {
    // mov #0,&0x0202; mov #77,&0x0204, twice; mov #3,&0x0202; mov #78,&0x0204
    let code = [
        0x4382, 0x0202, 0x40b2, 77, 0x0204, 0x40b2, 77, 0x0204, 0x40b2, 3, 0x0202, 0x40b2, 78,
        0x0204,
    ];
    let mut board = board_of(rt.alloc(), Side::Sender, &code)?;
    assert_eq!(rt; step(&rt, &mut board), plain(4, Some(0x0202)));
    assert_eq!(rt; step(&rt, &mut board), sent(0x0204, (0, 77)));
    assert_eq!(rt; step(&rt, &mut board), sent(0x0204, (0, 77)));
    assert_eq!(rt; step(&rt, &mut board), plain(5, Some(0x0202)));
    assert_eq!(rt; step(&rt, &mut board), sent(0x0204, (3, 78)));
    assert_eq!(rt; (board.accepted(), board.repeats()), (0, 0));
    for side in [Side::Alone, Side::Listener] {
        let mut board = board_of(rt.alloc(), side, &code)?;
        assert_eq!(rt; step(&rt, &mut board), plain(4, Some(0x0202)));
        assert_eq!(rt; step(&rt, &mut board), accepted(77));
        assert_eq!(rt; step(&rt, &mut board), plain(5, Some(0x0204)));
        assert_eq!(rt; (board.accepted(), board.repeats()), (1, 1));
    }
    Ok(())
}

// The greatest acknowledgement is read, as an unsigned number, and power loss forgets it.
#[test]
fn the_greatest_acknowledgement_counts(rt: HostRuntime) -> Result<(), Fail> {
    // mov &0x0208,r4; jmp back to it
    let code = [0x4214, 0x0208, 0x3ffd];
    let mut board = board_of(rt.alloc(), Side::Sender, &code)?;
    for (brought, read) in [(0, 0), (3, 3), (2, 3), (40000, 40000), (7, 40000)] {
        board.bring_ack(brought);
        assert_eq!(rt; step(&rt, &mut board), plain(3, None));
        assert_eq!(rt; board.cpu().reg(R4), read);
        assert_eq!(rt; step(&rt, &mut board), plain(2, None));
    }
    board.power_up(0);
    assert_eq!(rt; step(&rt, &mut board), plain(3, None));
    assert_eq!(rt; board.cpu().reg(R4), 0);
    Ok(())
}

// A packet, of the word 0 too, fills the port and is accepted; another one is lost until the port is read. EVNUM tells its number, and 0
// where the port is empty.
#[test]
fn a_packet_waits_in_the_port(rt: HostRuntime) -> Result<(), Fail> {
    // mov #0x2400,sp; bis #8,sr; jmp $; at 0x4420: mov &0x020a,r4; mov &0x0206,r5; mov &0x020a,r4
    let mut code = [0x4303; 64];
    code[0] = 0x4031;
    code[1] = 0x2400;
    code[2] = 0xd232;
    code[3] = 0x3fff;
    code[16] = 0x4214;
    code[17] = 0x020a;
    code[18] = 0x4215;
    code[19] = 0x0206;
    code[20] = 0x4214;
    code[21] = 0x020a;
    let mut board = board_of(rt.alloc(), Side::Listener, &code)?;
    board.bring_packet(1, 2);
    assert_eq!(rt; (board.arisen(), board.missed()), (1, 0));
    // what was brought before the power-up is lost by it
    board.power_up(0);
    assert_eq!(rt; (board.arisen(), board.missed()), (1, 1));
    assert_eq!(rt; step(&rt, &mut board), plain(2, None));
    assert_eq!(rt; step(&rt, &mut board), plain(1, None));
    assert_eq!(rt; board.cost(), Ok(2));
    board.bring_packet(6, 0);
    assert_eq!(rt; board.cost(), Ok(6));
    board.bring_packet(7, 9);
    assert_eq!(rt; (board.arisen(), board.missed()), (3, 2));
    assert_eq!(rt; step(&rt, &mut board), plain(6, None));
    assert_eq!(rt; step(&rt, &mut board), plain(3, None));
    assert_eq!(rt; board.cpu().reg(R4), 6);
    assert_eq!(rt; step(&rt, &mut board), heard(3, Some(0)));
    assert_eq!(rt; board.cpu().reg(R5), 0);
    assert_eq!(rt; step(&rt, &mut board), plain(3, None));
    assert_eq!(rt; board.cpu().reg(R4), 0);
    Ok(())
}

// Nothing is brought to a board of another side.
#[test]
fn nothing_is_brought_elsewhere(rt: HostRuntime) -> Result<(), Fail> {
    // mov &0x0206,r4
    for side in [Side::Alone, Side::Sender] {
        let mut board = board_of(rt.alloc(), side, &[0x4214, 0x0206])?;
        board.bring_packet(0, 9);
        board.bring_ack(9);
        assert_eq!(rt; step(&rt, &mut board), heard(3, None));
        assert_eq!(rt; (board.arisen(), board.missed()), (0, 0));
    }
    Ok(())
}

//! The dearest way of a program's code.

ghost use Rattle.std.specs.Prelude.{◌≡◌, ◌==◌, ◌+◌, ◌*◌, ◌^◌, ◌<◌, ◌≤◌, ◌∷◌, ◌++◌, ◌-◌, [], ℕ, None, not, if◌then◌else◌, is_some, true, false, IfOk, OnOk};
ghost use Rattle.word_code.specs.array_versions.Program.{Program, truth, repeat};
ghost use Rattle.word_code.specs.array_versions.View.{program_of, steps_of, step_of, test_of};
ghost use Rattle.word_code.specs.array_versions.Form.{LocalsBelow, StepLocalsBelow, TestLocalsBelow};
ghost use Rattle.word_code.specs.array_versions.Cost.{words_of, step_words, test_words, call_cycles};
ghost use Rattle.word_code.specs.declared.waiting.Waiting.TheVariants.{R4};
ghost use Rattle.word_code.specs.Code.{owed_by, owed, power, size, holds_code, compares_code, number_code, turn_end, pass_over, test_code};
ghost use Rattle.word_code.specs.Code.{block_code, waiting_behind, waiting_after, bound_of};
ghost use Rattle.code_paths.specs.Paths.{capped, forward_most};
ghost use Rattle.code_costs.specs.Dearest.{any_most, bits_in, by_number_most, product_most, flush_most, leaf_most};
ghost use Rattle.code_costs.specs.Dearest.{back_cycles, turn_most, turns_most, step_most, call_most, give_most};
ghost use Rattle.code_costs.specs.Dearest.{test_most, steps_most, block_most, most_spent};
ghost use Rattle.code_ways.specs.Ways.{choice_ways, forks_of, leaving_ways, ways_behind, ways_of};
ghost use Rattle.dearest_ways.specs.Ways.{straight_cost, step_choices, test_choices, program_choices, step_ways, test_forks};
ghost use Rattle.dearest_ways.specs.Ways.{steps_ways, block_ways, bare, body_cycles, IsDearestWay};
ghost use Rattle.dearest_ways.specs.Calls.{cost_at, CallsCost};

use crate::calls::{CallCost, cost_at};
use array_versions::{BinaryOperation, Comparison, WordProgram, WordStep, WordTest};
use code_paths::{forward_most, plus};
use code_ways::{
    Forks, Ways, all_turns, behind, both, choice, chosen, counts_of, forked, leaving, most_of,
    one_of, straight, turned,
};
use codegen::parts::{
    bounds_within, code_words, emit_all, emit_block, emit_compares, emit_flushed, emit_holds,
    emit_number, emit_pass_over, emit_stack_set, emit_step, emit_test, emit_turn_end, steps_locals,
    words_if,
};
use std::alloc::{AllocError, Global};
use word_code::forms::Form;
use word_code::{Bound, Waiting};

// The cycles of the push of a word that waits, at most.
fn owed_by(word: Waiting) -> u64
    ensures { result ≡ owed_by word }
{
    match word {
        Waiting::Number(_) => 4,
        Waiting::Fram(_) | Waiting::Local(_) => 5,
        Waiting::R4 | Waiting::R6 => 3,
    }
}

// Of all of them.
fn owed(waiting: &[Waiting]) -> u64
    ensures { result ≡ capped (owed waiting.now) }
{
    let mut cycles = 0;
    for i in (0..waiting.len()).rev() {
        cycles = plus(cycles, owed_by(waiting[i]));
    }
    cycles
}

// Code without jumps out of it, which costs so much at most whatever it is.
fn priced(alloc: Global, code: &[Form], most: u64) -> Result<Ways, AllocError>
    ensures { IfOk result (λ w. ways_of w ≡ straight_cost (forward_most code.now most)) }
{
    let cycles = forward_most(alloc, code, most)?;
    Ok(straight(cycles))
}

// The words that wait are pushed, and then none waits.
fn flush(alloc: Global, waiting: &mut Vec<Waiting>) -> Result<Ways, AllocError>
    ensures ways { IfOk result (λ w. ways_of w ≡ straight_cost (flush_most waiting.old.items)) }
    ensures waiting { OnOk result (waiting.new.items ≡ []) }
{
    let most = owed(waiting);
    let mut code = Vec::new(alloc);
    emit_all(waiting, &mut code)?;
    priced(alloc, code.as_slice(), most)
}

// Whether a number is a power of two.
fn is_power(number: u16) -> bool
    ensures { result ≡ is_some (power number) }
{
    let count = number.trailing_zeros();
    count < 16 && number == 1 << count
}

// Whether anything is left of a number.
fn bit_left(number: u16) -> u64
    ensures { result ≡ (if number == 0 then 0 else 1) }
{
    if number == 0 { 0 } else { 1 }
}

// How many bits a number has, 15 at most.
#[tactic(auto, using(crate::proofs::Priced::bits_ended, crate::proofs::Priced::bit_small))]
fn bits_in(number: u16) -> u64
    ensures value { result ≡ bits_in 15 number }
    ensures low { result ≤ 15 }
{
    let mut left = number;
    let mut bits = 0u64;
    for turn in 0..15u16 {
        bits += bit_left(left);
        left = left / 2;
    }
    bits
}

// What a product by a number costs: a turn for each of its bits, and one for 0.
fn by_number_most(number: u16) -> u64
    ensures { result ≡ by_number_most (power number) number }
{
    if is_power(number) {
        152
    } else {
        8 + (1 + bits_in(number / 2)) * 9
    }
}

// What a product costs whose right side may wait on top.
fn product_most(waiting: &[Waiting]) -> u64
    ensures { result ≡ product_most waiting.now }
{
    match waiting.first() {
        Some(Waiting::Number(number)) => by_number_most(*number),
        _ => 152,
    }
}

// What a step costs that is no test, no choice, no loop, no jump, no call and no return, whatever its code is.
fn any_most(waiting: &[Waiting], step: &WordStep) -> u64
    ensures { result ≡ any_most waiting.now (step_of step.now) }
{
    match step {
        WordStep::Binary(BinaryOperation::Multiply) => product_most(waiting),
        _ => 202,
    }
}

// Such a step; the words that wait in front of it become those that wait behind it.
fn leaf(
    alloc: Global,
    bounds: &[Bound],
    step: &WordStep,
    waiting: &mut Vec<Waiting>,
) -> Result<Ways, AllocError>
    requires room { step_words (step_of step.now) ≤ 0x7FFF }
    requires locals { StepLocalsBelow 1016 (step_of step.now) }
    ensures ways { IfOk result (λ w. ways_of w ≡ straight_cost (leaf_most bounds.now waiting.old.items (step_of step.now))) }
    ensures waiting { OnOk result (waiting.new.items ≡ waiting_behind waiting.old.items (step_of step.now)) }
{
    let most = plus(any_most(waiting, step), owed(waiting));
    let mut code = Vec::new(alloc);
    emit_step(alloc, bounds, step, waiting, &mut code)?;
    priced(alloc, code.as_slice(), most)
}

// What asks whether the top isn't 0, and goes over so many words.
fn holds_asked(
    alloc: Global,
    when: bool,
    over: u16,
    waiting: &mut Vec<Waiting>,
) -> Result<Ways, AllocError>
    requires { 2 * over ≤ 0xFFFE }
    ensures { IfOk result (λ w. ways_of w ≡ straight_cost (forward_most (holds_code waiting.old.items when over) (8 + owed waiting.old.items))) }
{
    let most = plus(8, owed(waiting));
    let mut code = Vec::new(alloc);
    emit_holds(when, over, waiting, &mut code)?;
    priced(alloc, code.as_slice(), most)
}

// What asks whether the two words on top compare so, and goes over so many words.
fn compares_asked(
    alloc: Global,
    comparison: Comparison,
    when: bool,
    over: u16,
    waiting: &mut Vec<Waiting>,
) -> Result<Ways, AllocError>
    requires { 2 * over ≤ 0xFFFE }
    ensures { IfOk result (λ w. ways_of w ≡ straight_cost (forward_most (compares_code waiting.old.items comparison when over)
        (10 + owed waiting.old.items))) }
{
    let most = plus(10, owed(waiting));
    let mut code = Vec::new(alloc);
    emit_compares(comparison, when, over, waiting, &mut code)?;
    priced(alloc, code.as_slice(), most)
}

// How far the first of two tests goes over the second, and further where the flag is set.
fn over_both(
    alloc: Global,
    bounds: &[Bound],
    second: &WordTest,
    when: bool,
    over: u16,
    further: bool,
) -> Result<u16, AllocError>
    requires room { over + test_words (test_of second.now) ≤ 0x7FFF }
    requires locals { TestLocalsBelow 1016 (test_of second.now) }
    ensures value { IfOk result (λ n. n ≡ size (test_code bounds.now (test_of second.now) when over) + (if further then over else 0)) }
    ensures most { IfOk result (λ n. n ≤ test_words (test_of second.now) + over) }
{
    let mut code = Vec::new(alloc);
    emit_test(alloc, bounds, second, when, over, &mut code)?;
    Ok(code_words(code.as_slice()) + words_if(further, over))
}

// What goes over a block to its end, where another block stands behind it: its words with it, and what it costs.
fn pass(alloc: Global, other: u16) -> Result<Ways, AllocError>
    requires { 2 * other ≤ 0xFFFE }
    ensures { IfOk result (λ w. ways_of w ≡ straight_cost (forward_most (pass_over other) 3)) }
{
    let mut code = Vec::new(alloc);
    emit_pass_over(other, &mut code)?;
    priced(alloc, code.as_slice(), 3)
}

// How many words the code of a choice goes over: its second block, and its first with what goes over the second.
#[derive(Clone, Copy)]
struct Jumps {
    second: u16,
    first: u16,
}

// The same of a choice between these blocks.
fn choice_jumps(
    alloc: Global,
    bounds: &[Bound],
    taken: &[WordStep],
    otherwise: &[WordStep],
) -> Result<Jumps, AllocError>
    requires room { words_of (steps_of taken.now) + words_of (steps_of otherwise.now) + 2 ≤ 0x7FFF }
    requires held { LocalsBelow 1016 (steps_of taken.now) }
    requires failed { LocalsBelow 1016 (steps_of otherwise.now) }
    ensures second { IfOk result (λ j. j.second ≡ size (block_code bounds.now (steps_of otherwise.now))) }
    ensures first { IfOk result (λ j. j.first
        ≡ size (block_code bounds.now (steps_of taken.now) ++ pass_over (size (block_code bounds.now (steps_of otherwise.now))))) }
    ensures short { IfOk result (λ j. j.second ≤ words_of (steps_of otherwise.now)) }
    ensures long { IfOk result (λ j. j.first ≤ words_of (steps_of taken.now) + 2) }
{
    let mut other = Vec::new(alloc);
    emit_block(alloc, bounds, otherwise, &mut other)?;
    let second = code_words(other.as_slice());
    let mut code = Vec::new(alloc);
    emit_block(alloc, bounds, taken, &mut code)?;
    emit_pass_over(second, &mut code)?;
    Ok(Jumps {
        second,
        first: code_words(code.as_slice()),
    })
}

// A local becomes a number.
fn number_set(alloc: Global, local: u16, number: u16) -> Result<Ways, AllocError>
    requires { local < 1016 }
    ensures { IfOk result (λ w. ways_of w ≡ straight_cost (forward_most (number_code local number) 5)) }
{
    let mut code = Vec::new(alloc);
    emit_number(local, number, &mut code)?;
    priced(alloc, code.as_slice(), 5)
}

// What goes back over so many words.
fn back_cycles(words: u16) -> u64
    ensures { result ≡ back_cycles words }
{
    if words <= 511 { 2 } else { 5 }
}

// The end of a turn with this body, and what goes back over both.
fn turn_ended(
    alloc: Global,
    inner: &[Bound],
    own: Bound,
    body: &[WordStep],
) -> Result<Ways, AllocError>
    requires room { words_of (steps_of body.now) + 15 ≤ 0x7FFF }
    requires low { own.local < 1016 }
    requires locals { LocalsBelow 1016 (steps_of body.now) }
    ensures { IfOk result (λ w. ways_of w ≡ straight_cost (turn_most own.local own.below
        (size (block_code inner.now (steps_of body.now) ++ turn_end own.local own.below)))) }
{
    let mut turn = Vec::new(alloc);
    emit_block(alloc, inner, body, &mut turn)?;
    emit_turn_end(own, &mut turn)?;
    let mut end = Vec::new(alloc);
    emit_turn_end(own, &mut end)?;
    let cycles = forward_most(alloc, end.as_slice(), 10)?;
    Ok(straight(plus(cycles, back_cycles(code_words(turn.as_slice())))))
}

// A test, whose code goes over so many words where its truth is the flag. Its first choice has the number that `choices` says, which becomes that of the
// next behind it; so with what follows.
#[cycle(ways)]
fn test_forks(
    alloc: Global,
    calls: &[CallCost],
    bounds: &[Bound],
    test: &WordTest,
    when: bool,
    over: u16,
    choices: &mut u32,
) -> Result<Forks, AllocError>
    requires room { over + test_words (test_of test.now) ≤ 0x7FFF }
    requires locals { TestLocalsBelow 1016 (test_of test.now) }
    requires few { choices.old + test_choices (test_of test.now) < 2 ^ 32 }
    ensures forks { IfOk result (λ t. forks_of t ≡ test_forks calls.now bounds.now choices.old (test_of test.now) when over) }
    ensures choices { OnOk result (choices.new ≡ choices.old + test_choices (test_of test.now)) }
{
    match test {
        WordTest::Holds(steps) => {
            let mut waiting = Vec::new(alloc);
            let first = steps_ways(alloc, calls, bounds, steps, &mut waiting, choices)?;
            let asked = holds_asked(alloc, when, over, &mut waiting)?;
            forked(behind(alloc, first, asked)?)
        }
        WordTest::Compares(comparison, steps) => {
            let mut waiting = Vec::new(alloc);
            let first = steps_ways(alloc, calls, bounds, steps, &mut waiting, choices)?;
            let asked = compares_asked(alloc, *comparison, when, over, &mut waiting)?;
            forked(behind(alloc, first, asked)?)
        }
        WordTest::Both(first, second) => {
            let further = over_both(alloc, bounds, second, when, over, !when)?;
            let one = test_forks(alloc, calls, bounds, first, false, further, choices)?;
            let other = test_forks(alloc, calls, bounds, second, when, over, choices)?;
            both(alloc, one, other)
        }
        WordTest::Either(first, second) => {
            let further = over_both(alloc, bounds, second, when, over, when)?;
            let one = test_forks(alloc, calls, bounds, first, true, further, choices)?;
            let other = test_forks(alloc, calls, bounds, second, when, over, choices)?;
            one_of(alloc, one, other)
        }
        WordTest::Fails(test) => {
            let other = test_forks(alloc, calls, bounds, test, !when, over, choices)?;
            Ok(turned(other))
        }
    }
}

// The truth of a test.
#[cycle(ways)]
fn truth_ways(
    alloc: Global,
    calls: &[CallCost],
    bounds: &[Bound],
    test: &WordTest,
    waiting: &mut Vec<Waiting>,
    choices: &mut u32,
) -> Result<Ways, AllocError>
    requires room { step_words (truth (test_of test.now)) ≤ 0x7FFF }
    requires locals { TestLocalsBelow 1016 (test_of test.now) }
    requires few { choices.old + test_choices (test_of test.now) < 2 ^ 32 }
    ensures ways { IfOk result (λ w. ways_of w ≡ step_ways calls.now bounds.now waiting.old.items choices.old (truth (test_of test.now))) }
    ensures waiting { OnOk result (waiting.new.items ≡ []) }
    ensures choices { OnOk result (choices.new ≡ choices.old + test_choices (test_of test.now)) }
{
    let front = flush(alloc, waiting)?;
    let test = test_forks(alloc, calls, bounds, test, false, 2, choices)?;
    behind(alloc, front, chosen(alloc, test, straight(5), straight(3))?)
}

// A block under a choice of a number, and what goes over another block behind it.
#[cycle(ways)]
fn held_ways(
    alloc: Global,
    calls: &[CallCost],
    bounds: &[Bound],
    number: u32,
    block: &[WordStep],
    other: u16,
    choices: &mut u32,
) -> Result<Ways, AllocError>
    requires room { words_of (steps_of block.now) ≤ 0x7FFF }
    requires locals { LocalsBelow 1016 (steps_of block.now) }
    requires few { choices.old + program_choices (steps_of block.now) < 2 ^ 32 }
    requires over { 2 * other ≤ 0xFFFE }
    ensures ways { IfOk result (λ w. ways_of w ≡ ways_behind (choice_ways number true)
        (ways_behind (block_ways calls.now bounds.now choices.old (steps_of block.now)) (straight_cost (forward_most (pass_over other) 3)))) }
    ensures choices { OnOk result (choices.new ≡ choices.old + program_choices (steps_of block.now)) }
{
    let holds = choice(alloc, number, true)?;
    let block = block_ways(alloc, calls, bounds, block, choices)?;
    let over = pass(alloc, other)?;
    behind(alloc, holds, behind(alloc, block, over)?)
}

// A block under a choice of a number, where its test fails.
#[cycle(ways)]
fn failed_ways(
    alloc: Global,
    calls: &[CallCost],
    bounds: &[Bound],
    number: u32,
    block: &[WordStep],
    choices: &mut u32,
) -> Result<Ways, AllocError>
    requires room { words_of (steps_of block.now) ≤ 0x7FFF }
    requires locals { LocalsBelow 1016 (steps_of block.now) }
    requires few { choices.old + program_choices (steps_of block.now) < 2 ^ 32 }
    ensures ways { IfOk result (λ w. ways_of w ≡ ways_behind (choice_ways number false) (block_ways calls.now bounds.now choices.old (steps_of block.now))) }
    ensures choices { OnOk result (choices.new ≡ choices.old + program_choices (steps_of block.now)) }
{
    let fails = choice(alloc, number, false)?;
    let block = block_ways(alloc, calls, bounds, block, choices)?;
    behind(alloc, fails, block)
}

// A loop, by the bound in its body.
#[cycle(ways)]
fn loop_ways(
    alloc: Global,
    calls: &[CallCost],
    bounds: &[Bound],
    own: Bound,
    from: u16,
    body: &[WordStep],
    waiting: &mut Vec<Waiting>,
    choices: &mut u32,
) -> Result<Ways, AllocError>
    requires room { step_words (repeat own.local from own.below (steps_of body.now)) ≤ 0x7FFF }
    requires low { own.local < 1016 }
    requires locals { LocalsBelow 1016 (steps_of body.now) }
    requires few { choices.old + program_choices (steps_of body.now) < 2 ^ 32 }
    ensures ways { IfOk result (λ w. ways_of w
        ≡ step_ways calls.now bounds.now waiting.old.items choices.old (repeat own.local from own.below (steps_of body.now))) }
    ensures waiting { OnOk result (waiting.new.items ≡ []) }
    ensures choices { OnOk result (choices.new ≡ choices.old + program_choices (steps_of body.now)) }
{
    let front = flush(alloc, waiting)?;
    let set = number_set(alloc, own.local, from)?;
    let inner = bounds_within(alloc, own, bounds)?;
    let turn = block_ways(alloc, calls, &inner, body, choices)?;
    let end = turn_ended(alloc, &inner, own, body)?;
    let turn = behind(alloc, turn, end)?;
    let turns = all_turns(alloc, own.below.saturating_sub(from), turn)?;
    behind(alloc, front, behind(alloc, set, turns)?)
}

// The cycles of a call beside those of what it calls.
fn call_cycles(frame: Option<u16>, count: u16) -> u64
    ensures { result ≡ call_cycles frame count }
{
    match frame {
        None => 8 + 2 * count as u64,
        Some(_) => 16 + 5 * count as u64,
    }
}

// A call, whose function's body isn't a part of the step; its word waits behind it.
#[tactic(auto, using(crate::proofs::Priced::cut_call))]
fn call_ways(
    calls: &[CallCost],
    entry: u16,
    frame: Option<u16>,
    count: u16,
    waiting: &mut Vec<Waiting>,
) -> Result<Ways, AllocError>
    ensures ways { IfOk result (λ w. ways_of w ≡ straight_cost (call_most frame count waiting.old.items + cost_at calls.now entry)) }
    ensures waiting { OnOk result (waiting.new.items ≡ R4 ∷ []) }
{
    let own = plus(call_cycles(frame, count), owed(waiting));
    waiting.clear();
    waiting.push(Waiting::R4)?;
    Ok(straight(plus(own, cost_at(calls, entry))))
}

// A return, behind which nothing waits.
#[tactic(auto, using(crate::proofs::Priced::cut_sum))]
fn give_ways(waiting: &mut Vec<Waiting>) -> Ways
    ensures ways { ways_of result ≡ leaving_ways (capped (give_most waiting.old.items)) }
    ensures waiting { waiting.new.items ≡ [] }
{
    let cycles = plus(5, owed(waiting));
    waiting.clear();
    leaving(cycles)
}

// A step; the words that wait in front of it become those that wait behind it.
#[cycle(ways)]
fn step_ways(
    alloc: Global,
    calls: &[CallCost],
    bounds: &[Bound],
    step: &WordStep,
    waiting: &mut Vec<Waiting>,
    choices: &mut u32,
) -> Result<Ways, AllocError>
    requires room { step_words (step_of step.now) ≤ 0x7FFF }
    requires locals { StepLocalsBelow 1016 (step_of step.now) }
    requires few { choices.old + step_choices (step_of step.now) < 2 ^ 32 }
    ensures ways { IfOk result (λ w. ways_of w ≡ step_ways calls.now bounds.now waiting.old.items choices.old (step_of step.now)) }
    ensures waiting { OnOk result (waiting.new.items ≡ waiting_behind waiting.old.items (step_of step.now)) }
    ensures choices { OnOk result (choices.new ≡ choices.old + step_choices (step_of step.now)) }
{
    match step {
        WordStep::Truth(test) => truth_ways(alloc, calls, bounds, test, waiting, choices),
        WordStep::Choose(test, taken, otherwise) => {
            let front = flush(alloc, waiting)?;
            let jumps = choice_jumps(alloc, bounds, taken, otherwise)?;
            let number = *choices;
            *choices += 1;
            let asked = test_forks(alloc, calls, bounds, test, false, jumps.first, choices)?;
            let held = held_ways(alloc, calls, bounds, number, taken, jumps.second, choices)?;
            let failed = failed_ways(alloc, calls, bounds, number, otherwise, choices)?;
            behind(alloc, front, chosen(alloc, asked, held, failed)?)
        }
        WordStep::Repeat {
            local,
            from,
            below,
            body,
        } => {
            let own = Bound {
                local: *local,
                below: *below,
            };
            loop_ways(alloc, calls, bounds, own, *from, body, waiting, choices)
        }
        WordStep::Jump(_) => {
            let front = flush(alloc, waiting)?;
            behind(alloc, front, leaving(3))
        }
        WordStep::Call {
            entry,
            frame,
            count,
            ..
        } => call_ways(calls, *entry, *frame, *count, waiting),
        WordStep::Give => Ok(give_ways(waiting)),
        _ => leaf(alloc, bounds, step, waiting),
    }
}

// Steps, one after another.
#[cycle(ways)]
fn steps_ways(
    alloc: Global,
    calls: &[CallCost],
    bounds: &[Bound],
    steps: &[WordStep],
    waiting: &mut Vec<Waiting>,
    choices: &mut u32,
) -> Result<Ways, AllocError>
    requires room { words_of (steps_of steps.now) ≤ 0x7FFF }
    requires locals { LocalsBelow 1016 (steps_of steps.now) }
    requires few { choices.old + program_choices (steps_of steps.now) < 2 ^ 32 }
    ensures ways { IfOk result (λ w. ways_of w ≡ steps_ways calls.now bounds.now waiting.old.items choices.old (steps_of steps.now)) }
    ensures waiting { OnOk result (waiting.new.items ≡ waiting_after waiting.old.items (steps_of steps.now)) }
    ensures choices { OnOk result (choices.new ≡ choices.old + program_choices (steps_of steps.now)) }
{
    let mut ways = straight(0);
    for step in steps {
        let next = step_ways(alloc, calls, bounds, step, waiting, choices)?;
        ways = behind(alloc, ways, next)?;
    }
    Ok(ways)
}

// Steps with no word waiting in front of them or behind them.
#[cycle(ways)]
fn block_ways(
    alloc: Global,
    calls: &[CallCost],
    bounds: &[Bound],
    steps: &[WordStep],
    choices: &mut u32,
) -> Result<Ways, AllocError>
    requires room { words_of (steps_of steps.now) ≤ 0x7FFF }
    requires locals { LocalsBelow 1016 (steps_of steps.now) }
    requires few { choices.old + program_choices (steps_of steps.now) < 2 ^ 32 }
    ensures ways { IfOk result (λ w. ways_of w ≡ block_ways calls.now bounds.now choices.old (steps_of steps.now)) }
    ensures choices { OnOk result (choices.new ≡ choices.old + program_choices (steps_of steps.now)) }
{
    let mut waiting = Vec::new(alloc);
    let ways = steps_ways(alloc, calls, bounds, steps, &mut waiting, choices)?;
    let end = flush(alloc, &mut waiting)?;
    behind(alloc, ways, end)
}

/// The dearest way of a program.
#[derive(Drop)]
pub struct DearestWay {
    /// The cycles that the program's code takes on it; 2^64 - 1 where they are more.
    pub cycles: u64,
    /// How often the test of each choice holds on it.
    pub held: Vec<u64>,
    /// How often it fails.
    pub failed: Vec<u64>,
}

// The dearest way of a program as it is.
fn bare_way(
    alloc: Global,
    calls: &[CallCost],
    program: &WordProgram,
) -> Result<DearestWay, AllocError>
    requires room { words_of (program_of program.now) ≤ 0x7FFF }
    requires locals { LocalsBelow 1016 (program_of program.now) }
    ensures { IfOk result (λ w. IsDearestWay w calls.now (program_of program.now)) }
{
    let mut set = Vec::new(alloc);
    emit_stack_set(steps_locals(&program.steps), &mut set)?;
    let front = priced(alloc, set.as_slice(), 2)?;
    let mut choices = 0;
    let block = block_ways(alloc, calls, &[], &program.steps, &mut choices)?;
    let way = most_of(behind(alloc, front, block)?);
    Ok(DearestWay {
        cycles: way.cycles,
        held: counts_of(alloc, &way.taken, true, choices)?,
        failed: counts_of(alloc, &way.taken, false, choices)?,
    })
}

// The cycles of the dearest way through a body as it is.
fn bare_cycles(alloc: Global, calls: &[CallCost], body: &WordProgram) -> Result<u64, AllocError>
    requires room { words_of (program_of body.now) ≤ 0x7FFF }
    requires locals { LocalsBelow 1016 (program_of body.now) }
    ensures { IfOk result (λ cycles. cycles ≡ body_cycles calls.now (program_of body.now)) }
{
    let mut choices = 0;
    let block = block_ways(alloc, calls, &[], &body.steps, &mut choices)?;
    Ok(most_of(behind(alloc, straight(0), block)?).cycles)
}

/// The dearest way of the code of a program, by what its calls cost: no way takes more cycles, whatever the words are that decide
/// it. Choices stand in the order in which the program has them; those of what it calls aren't among them. It is told of each program that has bodies in the
/// calls of this one.
///
/// # Errors
/// `AllocError` where memory was refused.
pub fn dearest_way(
    alloc: Global,
    calls: &[CallCost],
    program: &WordProgram,
) -> Result<DearestWay, AllocError>
    requires room { words_of (program_of program.now) ≤ 0x7FFF }
    requires locals { LocalsBelow 1016 (program_of program.now) }
    ensures way { IfOk result (λ w. (p : Program) → bare p ≡ program_of program.now → IsDearestWay w calls.now p) }
    ensures cycles { IfOk result (λ w. (p : Program) → bare p ≡ program_of program.now → CallsCost calls.now p
        → w.cycles ≡ capped (most_spent p)) }
{
    bare_way(alloc, calls, program)
}

/// The cycles that the code of a function's body takes on its dearest way, by what its calls cost; 2^64 - 1 where they are more. It is told of each body that
/// has bodies in the calls of this one.
///
/// # Errors
/// `AllocError` where memory was refused.
pub fn body_cycles(alloc: Global, calls: &[CallCost], body: &WordProgram) -> Result<u64, AllocError>
    requires room { words_of (program_of body.now) ≤ 0x7FFF }
    requires locals { LocalsBelow 1016 (program_of body.now) }
    ensures { IfOk result (λ cycles. (p : Program) → bare p ≡ program_of body.now → CallsCost calls.now p → cycles ≡ capped (block_most [] p 0)) }
{
    bare_cycles(alloc, calls, body)
}

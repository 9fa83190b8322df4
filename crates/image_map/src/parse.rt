//! Lines read as a map.
ghost use Rattle.std.specs.Prelude.{◌≡◌, ◌<◌, ◌≤◌, ◌+◌, Some, None, OnOk, IfOk, length, codes, true, false};
ghost use Rattle.text_parts.specs.Fields.{fields};
ghost use Rattle.text_parts.specs.Lines.{lines};
ghost use Rattle.image_map.specs.MapValue.{IsFramWord, AreFramWords};
ghost use Rattle.image_map.specs.Line.{line_fields, start_of, bound_of, words_of, place_of, scalar_of, array_of, lone_name};
ghost use Rattle.image_map.specs.Reading as reading;
ghost use Rattle.image_map.specs.Reading.{Gives, take_line, head, with_copies, with_ring, put_variable, put_task, put_private, step, body, map_lines};
ghost use Rattle.image_map.specs.Read.{read_text};

use crate::fault::MapFault;
use crate::line::{
    array_of, bound_of, first_field, is_start, lone_name, place_of, ring_of, scalar_of, words_of,
};
use crate::map::Map;
use crate::name::Name;
use crate::parts::{Place, RuntimeWords, Variable};
use std::alloc::Global;
use text_parts::{cut_line, is_blank_line};

/// A map that lines begin with.
#[derive(Drop)]
pub struct MapText<'a> {
    pub map: Map,
    /// What stands behind its last line.
    pub rest: &'a [u8],
    /// The number of the line behind it.
    pub line: u32,
}

fn take_start(text: &[u8], n: u32) -> Result<&[u8], MapFault>
    ensures value { Gives (λ rest. (true, lines rest.now)) result (take_line start_of n (lines text.now)) }
    ensures shorter { IfOk result (λ rest. length rest.now < length text.now) }
{
    let Some((line, rest)) = cut_line(text) else {
        return Err(MapFault::BadMap { line: n });
    };
    if is_start(line) {
        Ok(rest)
    } else {
        Err(MapFault::BadMap { line: n })
    }
}

fn take_bound(text: &[u8], n: u32) -> Result<(u32, &[u8]), MapFault>
    ensures value { Gives (λ p. (p.0, lines p.1.now)) result (take_line bound_of n (lines text.now)) }
    ensures shorter { IfOk result (λ p. length p.1.now < length text.now) }
{
    let Some((line, rest)) = cut_line(text) else {
        return Err(MapFault::BadMap { line: n });
    };
    match bound_of(line) {
        Some(bound) => Ok((bound, rest)),
        None => Err(MapFault::BadMap { line: n }),
    }
}

fn take_words(text: &[u8], n: u32) -> Result<(RuntimeWords, &[u8]), MapFault>
    ensures value { Gives (λ p. (p.0, lines p.1.now)) result (take_line words_of n (lines text.now)) }
    ensures addresses { IfOk result (λ p. AreFramWords p.0) }
    ensures shorter { IfOk result (λ p. length p.1.now < length text.now) }
{
    let Some((line, rest)) = cut_line(text) else {
        return Err(MapFault::BadMap { line: n });
    };
    match words_of(line) {
        Some(words) => Ok((words, rest)),
        None => Err(MapFault::BadMap { line: n }),
    }
}

fn take_place<'a>(word: &[u8], text: &'a [u8], n: u32) -> Result<(Place, &'a [u8]), MapFault>
    ensures value { Gives (λ p. (p.0, lines p.1.now)) result (take_line (place_of word.now) n (lines text.now)) }
    ensures address { IfOk result (λ p. IsFramWord p.0.address) }
    ensures shorter { IfOk result (λ p. length p.1.now < length text.now) }
{
    let Some((line, rest)) = cut_line(text) else {
        return Err(MapFault::BadMap { line: n });
    };
    match place_of(word, line) {
        Some(place) => Ok((place, rest)),
        None => Err(MapFault::BadMap { line: n }),
    }
}

// The map of the first six lines, and what stands behind them.
fn read_head(alloc: Global, text: &[u8], n: u32) -> Result<(Map, &[u8]), MapFault>
    requires { n + length text.now < 4294967296 }
    ensures value { Gives (λ p. (p.0, lines p.1.now)) result (head n (lines text.now)) }
    ensures no_copies { IfOk result (λ p. p.0.copies ≡ None) }
    ensures no_ring { IfOk result (λ p. p.0.ring ≡ None) }
    ensures shorter { IfOk result (λ p. length p.1.now + 6 ≤ length text.now) }
{
    let rest = take_start(text, n)?;
    let (bound, rest) = take_bound(rest, n + 1)?;
    let (words, rest) = take_words(rest, n + 2)?;
    let (list, rest) = take_place(b"list", rest, n + 3)?;
    let (emits, rest) = take_place(b"emits", rest, n + 4)?;
    let (versions, rest) = take_place(b"versions", rest, n + 5)?;
    Ok((Map::new(alloc, bound, words, list, emits, versions), rest))
}

// Adds the place of the copies, if the first line says it, which is line `n`; and what stands behind it, with the number of its first line.
fn take_copies<'a>(map: &mut Map, text: &'a [u8], n: u32) -> (&'a [u8], u32)
    requires room { n + length text.now < 4294967296 }
    requires bare { map.old.copies ≡ None }
    ensures value { record { value = map.new; rest = lines result.0.now; line = result.1 } ≡ with_copies map.old (reading.take_copies n (lines text.now)) }
    ensures ring { map.new.ring ≡ map.old.ring }
    ensures shorter { result.1 + length result.0.now ≤ n + length text.now }
{
    let Some((line, rest)) = cut_line(text) else {
        return (text, n);
    };
    match place_of(b"copies", line) {
        Some(copies) => {
            map.set_copies(copies);
            (rest, n + 1)
        }
        None => (text, n),
    }
}

// Adds the ring, if the first line says it, which is line `n`; and what stands behind it, with the number of its first line.
fn take_ring<'a>(map: &mut Map, text: &'a [u8], n: u32) -> (&'a [u8], u32)
    requires room { n + length text.now < 4294967296 }
    requires bare { map.old.ring ≡ None }
    ensures value { record { value = map.new; rest = lines result.0.now; line = result.1 } ≡ with_ring map.old (reading.take_ring n (lines text.now)) }
    ensures shorter { result.1 + length result.0.now ≤ n + length text.now }
{
    let Some((line, rest)) = cut_line(text) else {
        return (text, n);
    };
    match ring_of(line) {
        Some(ring) => {
            map.set_ring(ring);
            (rest, n + 1)
        }
        None => (text, n),
    }
}

fn put_variable(map: &mut Map, v: Option<Variable>, n: u32) -> Result<bool, MapFault>
    ensures { Gives (λ on. (on, map.new)) result (put_variable n map.old v) }
{
    let Some(v) = v else {
        return Err(MapFault::BadMap { line: n });
    };
    if !map.takes_variable(&v) {
        return Err(MapFault::BadMap { line: n });
    }
    map.add_variable(v)?;
    Ok(true)
}

fn put_task(alloc: Global, map: &mut Map, name: Option<Name>, n: u32) -> Result<bool, MapFault>
    ensures { Gives (λ on. (on, map.new)) result (put_task n map.old name) }
{
    let Some(name) = name else {
        return Err(MapFault::BadMap { line: n });
    };
    if !map.takes_task(&name) {
        return Err(MapFault::BadMap { line: n });
    }
    map.add_task(alloc, name)?;
    Ok(true)
}

fn put_private(map: &mut Map, name: Option<Name>, n: u32) -> Result<bool, MapFault>
    ensures { Gives (λ on. (on, map.new)) result (put_private n map.old name) }
{
    let Some(name) = name else {
        return Err(MapFault::BadMap { line: n });
    };
    if !map.takes_private(&name) {
        return Err(MapFault::BadMap { line: n });
    }
    map.add_private(name)?;
    Ok(true)
}

// Adds what line `n` says, and says whether lines of the map follow.
fn add_line(alloc: Global, map: &mut Map, line: &[u8], n: u32) -> Result<bool, MapFault>
    ensures value { Gives (λ on. (on, map.new)) result (step n map.old (line_fields line.now)) }
    ensures task { IfOk result (λ on. on ≡ false → 0 < length map.new.tasks) }
{
    let Some((word, rest)) = first_field(line) else {
        return Err(MapFault::BadMap { line: n });
    };
    if word == b"scalar".as_slice() {
        put_variable(map, scalar_of(rest), n)
    } else if word == b"array".as_slice() {
        put_variable(map, array_of(rest), n)
    } else if word == b"task".as_slice() {
        put_task(alloc, map, lone_name(rest), n)
    } else if word == b"private".as_slice() {
        put_private(map, lone_name(rest), n)
    } else if word == b"end".as_slice() && is_blank_line(rest) && !map.tasks().is_empty() {
        Ok(false)
    } else {
        Err(MapFault::BadMap { line: n })
    }
}

// The map with the variables and tasks of the lines up to `end`.
fn read_body<'a>(alloc: Global, map: Map, text: &'a [u8], n: u32) -> Result<MapText<'a>, MapFault>
    requires { n + length text.now < 4294967296 }
    ensures value { Gives read_text result (body n map (lines text.now)) }
    ensures task { IfOk result (λ t. 0 < length t.map.tasks) }
    ensures shorter { IfOk result (λ t. t.line + length t.rest.now ≤ n + length text.now) }
{
    let mut map = map;
    let mut at = n;
    let mut rest = text;
    while let Some((line, behind)) = cut_line(rest) {
        let goes_on = add_line(alloc, &mut map, line, at)?;
        at += 1;
        if !goes_on {
            return Ok(MapText {
                map,
                rest: behind,
                line: at,
            });
        }
        rest = behind;
    }
    Err(MapFault::BadMap { line: at })
}

/// The map that lines begin with, of which the first has the number `n`, and what stands behind its `end`; or `BadMap` at
/// the first line that breaks the form or a rule, which is the line behind the last where the text ends too soon.
///
/// One blank parts the fields of a line. The lines are `map`, `bound B`, `words CUR NEXT GATE CLN EN BASE SB VER`, then `list`,
/// `emits`, `versions` and perhaps `copies`, each with an address and a capacity, perhaps `ring HEAD TAIL EC SE ANS ADDRESS 64`, whose 64 words
/// fit behind the last address, then `scalar NAME TYPE ADDRESS` and `array NAME TYPE ADDRESS N`, then `task NAME`, each followed by `private NAME`
/// lines, and `end`. An address is four upper-case hexadecimal digits, a number decimal and below 2^32, and TYPE is `unsigned`, `int` or, of a scalar,
/// `long`. `Memory` is want of memory, and says nothing of the text.
pub fn read_map(alloc: Global, text: &[u8], n: u32) -> Result<MapText<'_>, MapFault>
    requires { n + length text.now < 4294967296 }
    ensures value { Gives read_text result (map_lines n (lines text.now)) }
    ensures task { IfOk result (λ t. 0 < length t.map.tasks) }
    ensures shorter { IfOk result (λ t. t.line + length t.rest.now ≤ n + length text.now) }
{
    let (mut map, rest) = read_head(alloc, text, n)?;
    let (rest, line) = take_copies(&mut map, rest, n + 6);
    let (rest, line) = take_ring(&mut map, rest, line);
    read_body(alloc, map, rest, line)
}

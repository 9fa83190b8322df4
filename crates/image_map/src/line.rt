//! What the fields of one line say.
ghost use Rattle.std.specs.Prelude.{◌≡◌, ◌≤◌, ◌<◌, ◌^◌, ◌∷◌, [], Some, None, IfSome, MatchOption, option_map, is_some, length, true};
ghost use Rattle.text_parts.specs.Fields.{fields, no_fields};
ghost use Rattle.image_map.specs.MapValue.{IsFramWord, AreFramWords, IsRing};
ghost use Rattle.image_map.specs.Line.{single_from, line_fields, address_digit, fram_word, address_of, decimal_below, type_of, next_address, next_number};
ghost use Rattle.image_map.specs.Line.{next_length, next_name, next_type, behind, start_of, bound_of, words_of, place_of, scalar_of, array_of, lone_name};
ghost use Rattle.image_map.specs.Line.{AreFour, next_four, words_at, ring_at, ring_of, number_behind};

use crate::map::{fits, is_fram_word};
use crate::name::Name;
use crate::parts::{Place, RING_WORDS, RingPlaces, RuntimeWords, ValueType, Variable};
use alp_text::number;
use text_parts::{is_blank, is_blank_line, next_field};

// Whether each blank is one space between two other bytes.
fn is_single_spaced(line: &[u8]) -> bool
    ensures { result ≡ single_from true line.now }
{
    let mut apart = true;
    for b in line {
        if is_blank(*b) && (apart || *b != b' ') {
            return false;
        }
        apart = is_blank(*b);
    }
    !apart
}

/// The first field of a line in which one space parts the fields, and what stands behind it; nothing of another line.
#[tactic(auto, unfolding(crate::specs::Line::line_fields))]
pub fn first_field(line: &[u8]) -> Option<(&[u8], &[u8])>
    ensures { MatchOption result (line_fields line.now ≡ []) (λ cut. line_fields line.now ≡ cut.0.now ∷ fields cut.1.now) }
{
    if is_single_spaced(line) {
        next_field(line)
    } else {
        None
    }
}

#[tactic(auto, unfolding(crate::specs::Line::address_digit))]
fn address_digit(b: u8) -> Option<u8>
    ensures value { result ≡ address_digit b }
    ensures digit { IfSome result (λ v. v < 16) }
{
    match b {
        b'0'..=b'9' => Some(b - b'0'),
        b'A'..=b'F' => Some(b - b'A' + 10),
        _ => None,
    }
}

fn fram_word(address: u16) -> Option<u16>
    ensures value { result ≡ fram_word address }
    ensures address { IfSome result IsFramWord }
{
    if is_fram_word(address) {
        Some(address)
    } else {
        None
    }
}

fn address_of(field: &[u8]) -> Option<u16>
    ensures value { result ≡ address_of field.now }
    ensures address { IfSome result IsFramWord }
{
    let [a, b, c, d] = field else { return None };
    let a = address_digit(*a)?;
    let b = address_digit(*b)?;
    let c = address_digit(*c)?;
    let d = address_digit(*d)?;
    fram_word(4096 * a as u16 + 256 * b as u16 + 16 * c as u16 + d as u16)
}

fn decimal32(field: &[u8]) -> Option<u32>
    ensures { result ≡ decimal_below (2 ^ 32) field.now }
{
    if field.starts_with(b"0x") {
        return None;
    }
    match number(field) {
        Ok(n) if n < 4294967296 => Some(n as u32),
        _ => None,
    }
}

fn decimal16(field: &[u8]) -> Option<u16>
    ensures { result ≡ decimal_below (2 ^ 16) field.now }
{
    if field.starts_with(b"0x") {
        return None;
    }
    match number(field) {
        Ok(n) if n < 65536 => Some(n as u16),
        _ => None,
    }
}

fn type_of(field: &[u8]) -> Option<ValueType>
    ensures { result ≡ type_of field.now }
{
    if field == b"unsigned".as_slice() {
        Some(ValueType::Unsigned)
    } else if field == b"int".as_slice() {
        Some(ValueType::Int)
    } else if field == b"long".as_slice() {
        Some(ValueType::Long)
    } else {
        None
    }
}

fn next_address(line: &[u8]) -> Option<(u16, &[u8])>
    ensures value { option_map (λ p. (p.0, fields p.1.now)) result ≡ next_address (fields line.now) }
    ensures address { IfSome result (λ p. IsFramWord p.0) }
{
    let (field, rest) = next_field(line)?;
    Some((address_of(field)?, rest))
}

fn next_number(line: &[u8]) -> Option<(u32, &[u8])>
    ensures { option_map (λ p. (p.0, fields p.1.now)) result ≡ next_number (fields line.now) }
{
    let (field, rest) = next_field(line)?;
    Some((decimal32(field)?, rest))
}

fn next_length(line: &[u8]) -> Option<(u16, &[u8])>
    ensures { option_map (λ p. (p.0, fields p.1.now)) result ≡ next_length (fields line.now) }
{
    let (field, rest) = next_field(line)?;
    Some((decimal16(field)?, rest))
}

fn next_name(line: &[u8]) -> Option<(Name, &[u8])>
    ensures { option_map (λ p. (p.0, fields p.1.now)) result ≡ next_name (fields line.now) }
{
    let (field, rest) = next_field(line)?;
    Some((Name::of(field)?, rest))
}

fn next_type(line: &[u8]) -> Option<(ValueType, &[u8])>
    ensures { option_map (λ p. (p.0, fields p.1.now)) result ≡ next_type (fields line.now) }
{
    let (field, rest) = next_field(line)?;
    Some((type_of(field)?, rest))
}

// What stands behind the word that begins a line.
fn behind<'a>(word: &[u8], line: &'a [u8]) -> Option<&'a [u8]>
    ensures { option_map (λ rest. fields rest.now) result ≡ behind word.now (line_fields line.now) }
{
    let (field, rest) = first_field(line)?;
    if field == word { Some(rest) } else { None }
}

/// Whether a line is `map`.
pub fn is_start(line: &[u8]) -> bool
    ensures { result ≡ is_some (start_of (line_fields line.now)) }
{
    match behind(b"map", line) {
        Some(rest) => is_blank_line(rest),
        None => false,
    }
}

/// The number of a line `bound B`.
pub fn bound_of(line: &[u8]) -> Option<u32>
    ensures { result ≡ bound_of (line_fields line.now) }
{
    let rest = behind(b"bound", line)?;
    let (bound, rest) = next_number(rest)?;
    if is_blank_line(rest) {
        Some(bound)
    } else {
        None
    }
}

// Four addresses of a line, in their order.
#[derive(Clone, Copy)]
struct FourAddresses {
    first: u16,
    second: u16,
    third: u16,
    fourth: u16,
}

fn next_four(line: &[u8]) -> Option<(FourAddresses, &[u8])>
    ensures value { option_map (λ p. (p.0, fields p.1.now)) result ≡ next_four (fields line.now) }
    ensures addresses { IfSome result (λ p. AreFour p.0) }
{
    let (first, rest) = next_address(line)?;
    let (second, rest) = next_address(rest)?;
    let (third, rest) = next_address(rest)?;
    let (fourth, rest) = next_address(rest)?;
    Some((
        FourAddresses {
            first,
            second,
            third,
            fourth,
        },
        rest,
    ))
}

// The runtime's words at eight addresses.
fn words_at(head: FourAddresses, tail: FourAddresses) -> RuntimeWords
    ensures value { result ≡ words_at head tail }
    ensures addresses { AreFour head → AreFour tail → AreFramWords result }
{
    RuntimeWords {
        current_task: head.first,
        next_task: head.second,
        gate: head.third,
        list_length: head.fourth,
        emit_count: tail.first,
        base: tail.second,
        sent_base: tail.third,
        version: tail.fourth,
    }
}

/// The addresses of a line `words CUR NEXT GATE CLN EN BASE SB VER`.
pub fn words_of(line: &[u8]) -> Option<RuntimeWords>
    ensures value { result ≡ words_of (line_fields line.now) }
    ensures addresses { IfSome result AreFramWords }
{
    let rest = behind(b"words", line)?;
    let (head, rest) = next_four(rest)?;
    let (tail, rest) = next_four(rest)?;
    if is_blank_line(rest) {
        Some(words_at(head, tail))
    } else {
        None
    }
}

/// The place of a line that begins with `word`: an address and a number.
pub fn place_of(word: &[u8], line: &[u8]) -> Option<Place>
    ensures value { result ≡ place_of word.now (line_fields line.now) }
    ensures address { IfSome result (λ p. IsFramWord p.address) }
{
    let rest = behind(word, line)?;
    let (address, rest) = next_address(rest)?;
    let (capacity, rest) = next_number(rest)?;
    if is_blank_line(rest) {
        Some(Place { address, capacity })
    } else {
        None
    }
}

// The ring with these words and so many slots from an address on; nothing where it has another number of them, or they don't fit.
fn ring_at(words: FourAddresses, answer: u16, slots: u16, n: u16) -> Option<RingPlaces>
    requires words { AreFour words }
    requires answer { IsFramWord answer }
    requires slots { IsFramWord slots }
    ensures value { result ≡ ring_at words answer slots n }
    ensures ring { IfSome result IsRing }
{
    if n == RING_WORDS && fits(slots, RING_WORDS) {
        Some(RingPlaces {
            head: words.first,
            tail: words.second,
            event_count: words.third,
            sent_tail: words.fourth,
            answer,
            slots,
        })
    } else {
        None
    }
}

/// The ring of a line `ring HEAD TAIL EC SE ANS ADDRESS 64`.
pub fn ring_of(line: &[u8]) -> Option<RingPlaces>
    ensures value { result ≡ ring_of (line_fields line.now) }
    ensures ring { IfSome result IsRing }
{
    let rest = behind(b"ring", line)?;
    let (words, rest) = next_four(rest)?;
    let (answer, rest) = next_address(rest)?;
    let (slots, rest) = next_address(rest)?;
    let (n, rest) = next_length(rest)?;
    if is_blank_line(rest) {
        ring_at(words, answer, slots, n)
    } else {
        None
    }
}

/// The scalar of a line, behind its first word.
pub fn scalar_of(line: &[u8]) -> Option<Variable>
    ensures { result ≡ scalar_of (fields line.now) }
{
    let (name, rest) = next_name(line)?;
    let (value_type, rest) = next_type(rest)?;
    let (address, rest) = next_address(rest)?;
    if !is_blank_line(rest) {
        return None;
    }
    Some(Variable {
        name,
        value_type,
        address,
        length: None,
    })
}

/// The array of a line, behind its first word.
pub fn array_of(line: &[u8]) -> Option<Variable>
    ensures { result ≡ array_of (fields line.now) }
{
    let (name, rest) = next_name(line)?;
    let (value_type, rest) = next_type(rest)?;
    let (address, rest) = next_address(rest)?;
    let (length, rest) = next_length(rest)?;
    if !is_blank_line(rest) {
        return None;
    }
    Some(Variable {
        name,
        value_type,
        address,
        length: Some(length),
    })
}

/// The name of a line, behind its first word.
pub fn lone_name(line: &[u8]) -> Option<Name>
    ensures { result ≡ lone_name (fields line.now) }
{
    let (name, rest) = next_name(line)?;
    if is_blank_line(rest) {
        Some(name)
    } else {
        None
    }
}

/// The number below 65536 of a line that is a word and a number, with one space between; nothing of another line.
pub fn number_behind(word: &[u8], line: &[u8]) -> Option<u16>
    ensures { result ≡ number_behind word.now (line_fields line.now) }
{
    let rest = behind(word, line)?;
    let (number, rest) = next_length(rest)?;
    if is_blank_line(rest) {
        Some(number)
    } else {
        None
    }
}

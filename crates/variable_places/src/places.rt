//! Where what a task works on stands.
ghost use Rattle.std.specs.Prelude.{◌≡◌, ◌%◌, slice_get};
ghost use Rattle.memory_map.specs.Spots.{copy_among, home_of, routine_among};
ghost use Rattle.variable_places.specs.Places.{high_address, array_place, no_array, written_array};

use array_versions::{ArrayPlace, ListPlace};
use memory_map::{ArrayCopies, Layout, PrivateScalar, RoutinePlace, RuntimeWord, VariablePlace};
use task_ast::Variable;

/// The places that a task's program works on, or that of a function in it: those of the layout, the variables as the task sees them, the
/// scalars that are private in the task, its own locals and the functions that the task reaches.
#[derive(Clone, Copy)]
pub struct TaskPlaces<'l> {
    pub layout: &'l Layout,
    /// An array that the task doesn't write has no copies here.
    pub variables: &'l [VariablePlace],
    /// In order of declaration.
    pub privates: &'l [PrivateScalar],
    /// The number of the first local of the task, or of the function whose program this is.
    pub first: u16,
    /// The functions that the task reaches.
    pub routines: &'l [RoutinePlace],
}

// The copy of the variable of a number, where it is among these private scalars.
fn copy_among(privates: &[PrivateScalar], number: u32) -> Option<u16>
    ensures { result ≡ copy_among privates.now number }
{
    for scalar in privates {
        if scalar.number == number {
            return Some(scalar.copy);
        }
    }
    None
}

// The function of a number, where it is among these.
fn routine_among(routines: &[RoutinePlace], number: u32) -> Option<RoutinePlace>
    ensures { result ≡ routine_among routines.now number }
{
    for routine in routines {
        if routine.function == number {
            return Some(*routine);
        }
    }
    None
}

// The first word of a scalar, or the first element of an array; 0 where no variable has this number.
fn home_of(variables: &[VariablePlace], number: u32) -> u16
    ensures { result ≡ home_of variables.now number }
{
    match variables.get(number as usize) {
        Some(VariablePlace::Scalar { home, .. }) => *home,
        Some(VariablePlace::Array { elements, .. }) => *elements,
        None => 0,
    }
}

/// The elements of an array, their copies and their version words.
pub fn array_place(elements: u16, length: u16, copies: ArrayCopies) -> ArrayPlace
    ensures { result ≡ array_place elements length copies }
{
    ArrayPlace {
        elements,
        copies: copies.copies,
        versions: copies.versions,
        length,
    }
}

// An array of no elements.
fn no_array() -> ArrayPlace
    ensures { result ≡ no_array }
{
    ArrayPlace {
        elements: 0,
        copies: 0,
        versions: 0,
        length: 0,
    }
}

// The array of a number that a task may write; one of no elements where there is none.
fn written_array(variables: &[VariablePlace], number: u32) -> ArrayPlace
    ensures { result ≡ written_array (slice_get variables.now number) }
{
    match variables.get(number as usize) {
        Some(
            VariablePlace::Array {
                elements,
                length,
                copies: Some(copies),
            },
        ) => array_place(*elements, *length, *copies),
        Some(VariablePlace::Array { copies: None, .. } | VariablePlace::Scalar { .. }) | None =>
            no_array(),
    }
}

impl<'l> TaskPlaces<'l> {
    ghost use Rattle.memory_map.specs.Spots.{address_of, routine_of, routine_places};
    ghost use Rattle.variable_places.specs.Places.{list_place, local_number, stored_array};
    ghost use Rattle.variable_places.specs.View.{places_in};

    /// The number of a local. No program has 2^16 of them.
    pub fn local_number(&self, number: u32) -> u16
        ensures { result ≡ local_number (places_in self.now) number }
    {
        ((self.first as u64 + number as u64) % 65536) as u16
    }

    /// The function of a number, where it is one that the task reaches.
    pub fn routine_of(&self, function: u32) -> Option<RoutinePlace>
        ensures { result ≡ routine_of (places_in self.now) function }
    {
        routine_among(self.routines, function)
    }

    /// The places that the program of a function in this task works on.
    pub fn of_routine(&self, routine: RoutinePlace) -> TaskPlaces<'l>
        ensures { places_in result ≡ routine_places (places_in self.now) routine }
    {
        TaskPlaces {
            first: routine.first,
            ..*self
        }
    }

    /// The address of a shared variable in the task: that of its copy where it is private there, else that of its first word.
    pub fn address_of(&self, number: u32) -> u16
        ensures { result ≡ address_of (places_in self.now) number }
    {
        match copy_among(self.privates, number) {
            Some(copy) => copy,
            None => home_of(self.variables, number),
        }
    }

    /// The array of a variable that the task may write. The checks refuse an index on anything but an array.
    pub fn stored_array(&self, variable: Variable) -> ArrayPlace
        ensures { result ≡ stored_array (places_in self.now) variable }
    {
        match variable {
            Variable::Shared(number) => written_array(self.variables, number),
            Variable::Local(_) => no_array(),
        }
    }

    /// The number of the attempt, and the commit list.
    pub fn list_place(&self) -> ListPlace
        ensures { result ≡ list_place (places_in self.now) }
    {
        ListPlace {
            ver: self.layout.word_place(RuntimeWord::Version),
            cln: self.layout.word_place(RuntimeWord::ListLength),
            list: self.layout.list().address,
        }
    }
}

/// The low word of a number. A local's and a task's are no more than that: a task has at most 256 locals, and a program at most 64 tasks.
pub fn low_word(number: u32) -> u16
    ensures { result ≡ number % 65536 }
{
    (number % 65536) as u16
}

/// The address of the high word of a long: it stands right behind the low one.
pub fn high_address(address: u16) -> u16
    ensures { result ≡ high_address address }
{
    address.wrapping_add(2)
}

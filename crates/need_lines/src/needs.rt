//! What a task needs.

ghost use Rattle.std.specs.Prelude.{◌≡◌, max, map};
ghost use Rattle.need_lines.specs.Rows.{need_in, undo_in, greatest, greatest_undo, row_of};

/// A way that the dearest one through a task goes at an `if`, and how often.
#[derive(Clone, Copy)]
pub struct IfWay {
    /// The line of the `if`, from 1.
    pub line: u32,
    /// The number, from 1, of the condition that holds; 0 where none does.
    pub way: u64,
    pub times: u64,
}

/// What a task needs of a charge in an image that works in place, in cycles, part by part.
#[derive(Clone, Copy)]
pub struct UndoNeed {
    /// From a power-up to the start of an attempt, with all put back that an attempt before may have left.
    pub boot: u32,
    /// To the task's own code, with the version words cleared.
    pub start: u32,
    /// Through it, up to the store that decides.
    pub path: u32,
    /// To the end of the commit.
    pub commit: u32,
}

impl UndoNeed {
    /// In all.
    pub fn need(self) -> u64
        ensures { result ≡ undo_in self }
    {
        let begun = self.boot as u64 + self.start as u64;
        begun + self.path as u64 + self.commit as u64
    }
}

/// What a task needs of a charge, in cycles, part by part; what the table of allowances says of it; and the dearest way through it.
#[derive(Drop)]
pub struct TaskNeed<'t> {
    /// The task's name.
    pub name: &'t [u8],
    /// From a power-up to the start of an attempt.
    pub boot: u32,
    /// To the task's own code, with the version words cleared.
    pub start: u32,
    /// Through it, up to the store that decides.
    pub path: u32,
    /// To the end of the commit.
    pub commit: u32,
    /// The cycles that the table of allowances has for the task.
    pub table: u32,
    /// Its words of the 22,000.
    pub words: u32,
    /// Which ways the dearest one goes at the `if`s on it, in the order of the text.
    pub ways: Vec<IfWay>,
    /// What it needs where the image works in place.
    pub undo: UndoNeed,
}

impl TaskNeed<'_> {
    /// In all.
    pub fn need(&self) -> u64
        ensures { result ≡ need_in (row_of self.now) }
    {
        self.boot as u64 + self.start as u64 + self.path as u64 + self.commit as u64
    }
}

// The greater of two numbers.
fn dearer(a: u64, b: u64) -> u64
    ensures { result ≡ max a b }
{
    if a < b { b } else { a }
}

/// The greatest need of some tasks, 0 where there are none.
pub fn greatest(needs: &[TaskNeed<'_>]) -> u64
    ensures { result ≡ greatest (map row_of needs.now) }
{
    let mut most = 0;
    for i in (0..needs.len()).rev() {
        most = dearer(needs[i].need(), most);
    }
    most
}

/// The greatest need in place of some tasks, 0 where there are none.
pub fn greatest_undo(needs: &[TaskNeed<'_>]) -> u64
    ensures { result ≡ greatest_undo (map row_of needs.now) }
{
    let mut most = 0;
    for i in (0..needs.len()).rev() {
        most = dearer(needs[i].undo.need(), most);
    }
    most
}

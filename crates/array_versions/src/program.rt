//! Word programs and their builders.

ghost use Rattle.std.specs.Prelude.{◌≡◌, OnOk, OnErr, IfOk};
ghost use Rattle.array_versions.specs.Program.{nothing, behind};
ghost use Rattle.array_versions.specs.Program as value;
ghost use Rattle.array_versions.specs.View.{program_of, step_of, test_of};

use crate::operations::{
    BinaryOperation, Comparison, LongOperation, PlainOperation, ShiftOperation, UnaryOperation,
};
use std::alloc::{AllocError, Global};

/// The places of a versioned array: the addresses of its elements, of their copies and of their version words, and its length
/// in words.
#[derive(Clone, Copy)]
pub struct ArrayPlace {
    pub elements: u16,
    pub copies: u16,
    pub versions: u16,
    pub length: u16,
}

/// The places of an array that is stored to in place and logged: the addresses of its elements and of their version words, and
/// its length in words.
#[derive(Clone, Copy)]
pub struct LoggedPlace {
    pub elements: u16,
    pub versions: u16,
    pub length: u16,
}

/// The addresses of the number of this attempt, of the count of the commit list's entries, and of the list.
#[derive(Clone, Copy)]
pub struct ListPlace {
    pub ver: u16,
    pub cln: u16,
    pub list: u16,
}

/// One step of a word program. Addresses are those of words of FRAM.
#[cycle(steps)]
#[derive(Drop)]
pub enum WordStep {
    /// Pushes a number.
    Number(u16),
    /// Pushes the word at an address.
    Load(u16),
    /// Pops a word and stores it at an address.
    Keep(u16),
    /// Pops a word and stores at an address what an operation gives of the word there and of that one.
    Update(PlainOperation, u16),
    /// Pushes a local.
    Local(u16),
    /// Pops a word and assigns it to a local.
    SetLocal(u16),
    /// Pops a word and assigns to a local what an operation gives of the local and of that word.
    UpdateLocal(PlainOperation, u16),
    Unary(UnaryOperation),
    Binary(BinaryOperation),
    /// A shift by a count of bits.
    Shift(ShiftOperation, u16),
    /// Pops the words that an operation with longs takes, and pushes those that it gives.
    Long(LongOperation),
    /// Pops an index and pushes the element of an array: 0 where the index isn't below the length.
    Element {
        base: u16,
        length: u16,
    },
    /// Pops a word, stores it in the emit buffer behind the words that are counted, and raises the count.
    EmitWord {
        count: u16,
        buffer: u16,
    },
    /// Stores an entry of the commit list behind those that are counted, a run's first home, its first copy and its words,
    /// and raises the count.
    ListEntry {
        count: u16,
        list: u16,
        home: u16,
        copy: u16,
        words: u16,
    },
    /// Pops an index and pushes the element of a versioned array as this attempt has it: its copy where its version word is
    /// the attempt's number. 0 where the index isn't below the length.
    VersionedRead(ArrayPlace, ListPlace),
    /// Pops a word and the index below it, and stores the word in the element's copy. The first time in the attempt it then
    /// stores the attempt's number as the version word, and lists the element: where both runs of the commit list's last
    /// entry end right before the element and its copy, the entry's words go up by one; else there is an entry of one word
    /// more. Nothing is stored where the index isn't below the length.
    VersionedWrite(ArrayPlace, ListPlace),
    /// Pops a word and the index below it, and stores in the element's copy what an operation gives of the element, as this
    /// attempt has it, and of that word; the first time in the attempt with what a `VersionedWrite` then stores. Nothing is
    /// stored where the index isn't below the length.
    VersionedUpdate(PlainOperation, ArrayPlace, ListPlace),
    /// Pops a word and the index below it, and stores the word in the element itself. The first time in the attempt it first
    /// lists the element: it stores an entry of its address and of its word behind those that are counted, raises the count, and
    /// stores the attempt's number as the version word. Nothing is stored where the index isn't below the length.
    LoggedWrite(LoggedPlace, ListPlace),
    /// Pops a word and the index below it, and stores in the element itself what an operation gives of the element and of that
    /// word; the first time in the attempt behind what a `LoggedWrite` then stores. Nothing is stored where the index isn't below
    /// the length.
    LoggedUpdate(PlainOperation, LoggedPlace, ListPlace),
    /// Takes the next reading and pushes it.
    Sense,
    /// Takes the next word of the ring, stores it as the answer, raises the count of those that the attempt has taken, and pushes
    /// it. Where none waits it stores 0 as the answer and pushes that.
    NextEvent,
    /// Stores the index of the next word of the ring as the one that the transition leaves.
    FreezeEvents,
    /// Pushes 1 where a test holds, else 0.
    Truth(WordTest),
    /// Goes on with the first steps where a test holds, else with the second.
    Choose(WordTest, Vec<WordStep>, Vec<WordStep>),
    /// Does the steps for each number of a local, from one number on, below another; behind them the local is the number
    /// after the last.
    Repeat {
        local: u16,
        from: u16,
        below: u16,
        body: Vec<WordStep>,
    },
    /// Stores a number at an address.
    StoreNumber {
        address: u16,
        word: u16,
    },
    /// Stores the word at one address at another.
    MoveWord {
        from: u16,
        to: u16,
    },
    /// Leaves the program for the code at an address.
    Jump(u16),
    /// Calls the function whose code begins at an address: pops so many words, of which the top is the last parameter's, and pushes
    /// the word that the function gives. Its parameters are locals from the first on. Where its locals stand in RAM they begin at
    /// its frame.
    Call {
        entry: u16,
        frame: Option<u16>,
        first: u16,
        count: u16,
    },
    /// In a function: pops a word and ends with it.
    Give,
}

/// A question that steps ask and that decides where a program goes on.
#[cycle(steps)]
#[derive(Drop)]
pub enum WordTest {
    /// Whether the word that steps leave on top isn't 0. It is popped.
    Holds(Vec<WordStep>),
    /// Whether the two words that steps leave on top compare so. They are popped.
    Compares(Comparison, Vec<WordStep>),
    /// Whether both hold; the second is asked only where the first holds.
    Both(Box<WordTest>, Box<WordTest>),
    /// Whether one of them holds; the second is asked only where the first fails.
    Either(Box<WordTest>, Box<WordTest>),
    /// Whether a test doesn't hold.
    Fails(Box<WordTest>),
}

/// A word program: its steps, one after another.
#[derive(Drop)]
pub struct WordProgram {
    pub steps: Vec<WordStep>,
}

impl WordTest {
    /// Whether the word that a program leaves on top isn't 0.
    pub fn holds(program: WordProgram) -> WordTest
        ensures { test_of result ≡ value.holds (program_of program) }
    {
        WordTest::Holds(program.steps)
    }

    /// Whether the two words that a program leaves on top compare so.
    pub fn compares(comparison: Comparison, program: WordProgram) -> WordTest
        ensures { test_of result ≡ value.compares comparison (program_of program) }
    {
        WordTest::Compares(comparison, program.steps)
    }

    /// Whether two tests hold; the second is asked only where the first does.
    pub fn both(alloc: Global, first: WordTest, second: WordTest) -> Result<WordTest, AllocError>
        ensures { IfOk result (λ t. test_of t ≡ value.both (test_of first) (test_of second)) }
    {
        Ok(WordTest::Both(Box::new(alloc, first)?, Box::new(alloc, second)?))
    }

    /// Whether one of two tests holds; the second is asked only where the first fails.
    pub fn either(alloc: Global, first: WordTest, second: WordTest) -> Result<WordTest, AllocError>
        ensures { IfOk result (λ t. test_of t ≡ value.either (test_of first) (test_of second)) }
    {
        Ok(WordTest::Either(Box::new(alloc, first)?, Box::new(alloc, second)?))
    }

    /// Whether a test doesn't hold.
    pub fn fails(alloc: Global, test: WordTest) -> Result<WordTest, AllocError>
        ensures { IfOk result (λ t. test_of t ≡ value.fails (test_of test)) }
    {
        Ok(WordTest::Fails(Box::new(alloc, test)?))
    }
}

impl WordProgram {
    /// A program without steps.
    pub fn new(alloc: Global) -> WordProgram
        ensures { program_of result ≡ nothing }
    {
        WordProgram {
            steps: Vec::new(alloc),
        }
    }

    // One step more. Without memory for it the program stays as it was; so it does under each builder below.
    #[tactic(auto, using(crate::proofs::Views::steps_of_pushed))]
    fn push(&mut self, step: WordStep) -> Result<(), AllocError>
        ensures ok { OnOk result (program_of self.new ≡ behind (program_of self.old) (step_of step)) }
        ensures err { OnErr result (program_of self.new ≡ program_of self.old) }
    {
        self.steps.push(step)?;
        Ok(())
    }

    /// Pushes a number.
    pub fn number(&mut self, word: u16) -> Result<(), AllocError>
        ensures ok { OnOk result (program_of self.new ≡ behind (program_of self.old) (value.number word)) }
        ensures err { OnErr result (program_of self.new ≡ program_of self.old) }
    {
        self.push(WordStep::Number(word))
    }

    /// Pushes the word at an address.
    pub fn load(&mut self, address: u16) -> Result<(), AllocError>
        ensures ok { OnOk result (program_of self.new ≡ behind (program_of self.old) (value.load address)) }
        ensures err { OnErr result (program_of self.new ≡ program_of self.old) }
    {
        self.push(WordStep::Load(address))
    }

    /// Pops a word and stores it at an address.
    pub fn keep(&mut self, address: u16) -> Result<(), AllocError>
        ensures ok { OnOk result (program_of self.new ≡ behind (program_of self.old) (value.keep address)) }
        ensures err { OnErr result (program_of self.new ≡ program_of self.old) }
    {
        self.push(WordStep::Keep(address))
    }

    /// Pops a word and stores at an address what the operation gives of the word there and of that one.
    pub fn update(&mut self, operation: PlainOperation, address: u16) -> Result<(), AllocError>
        ensures ok { OnOk result (program_of self.new ≡ behind (program_of self.old) (value.update operation address)) }
        ensures err { OnErr result (program_of self.new ≡ program_of self.old) }
    {
        self.push(WordStep::Update(operation, address))
    }

    /// Pushes a local.
    pub fn local(&mut self, n: u16) -> Result<(), AllocError>
        ensures ok { OnOk result (program_of self.new ≡ behind (program_of self.old) (value.local n)) }
        ensures err { OnErr result (program_of self.new ≡ program_of self.old) }
    {
        self.push(WordStep::Local(n))
    }

    /// Pops a word and assigns it to a local.
    pub fn set_local(&mut self, n: u16) -> Result<(), AllocError>
        ensures ok { OnOk result (program_of self.new ≡ behind (program_of self.old) (value.set_local n)) }
        ensures err { OnErr result (program_of self.new ≡ program_of self.old) }
    {
        self.push(WordStep::SetLocal(n))
    }

    /// Pops a word and assigns to a local what the operation gives of the local and of that word.
    pub fn update_local(&mut self, operation: PlainOperation, n: u16) -> Result<(), AllocError>
        ensures ok { OnOk result (program_of self.new ≡ behind (program_of self.old) (value.update_local operation n)) }
        ensures err { OnErr result (program_of self.new ≡ program_of self.old) }
    {
        self.push(WordStep::UpdateLocal(operation, n))
    }

    /// Pops a word and pushes what the operation gives.
    pub fn unary(&mut self, operation: UnaryOperation) -> Result<(), AllocError>
        ensures ok { OnOk result (program_of self.new ≡ behind (program_of self.old) (value.unary operation)) }
        ensures err { OnErr result (program_of self.new ≡ program_of self.old) }
    {
        self.push(WordStep::Unary(operation))
    }

    /// Pops two words and pushes what the operation gives. The top is its right side.
    pub fn binary(&mut self, operation: BinaryOperation) -> Result<(), AllocError>
        ensures ok { OnOk result (program_of self.new ≡ behind (program_of self.old) (value.binary operation)) }
        ensures err { OnErr result (program_of self.new ≡ program_of self.old) }
    {
        self.push(WordStep::Binary(operation))
    }

    /// Pops a word and pushes it shifted by a count of bits.
    pub fn shift(&mut self, operation: ShiftOperation, count: u16) -> Result<(), AllocError>
        ensures ok { OnOk result (program_of self.new ≡ behind (program_of self.old) (value.shift operation count)) }
        ensures err { OnErr result (program_of self.new ≡ program_of self.old) }
    {
        self.push(WordStep::Shift(operation, count))
    }

    /// Pops the words that an operation with longs takes, and pushes those that it gives.
    pub fn long(&mut self, operation: LongOperation) -> Result<(), AllocError>
        ensures ok { OnOk result (program_of self.new ≡ behind (program_of self.old) (value.long operation)) }
        ensures err { OnErr result (program_of self.new ≡ program_of self.old) }
    {
        self.push(WordStep::Long(operation))
    }

    /// Pops an index and pushes the element of the array at an address: 0 where the index isn't below the length.
    pub fn element(&mut self, base: u16, length: u16) -> Result<(), AllocError>
        ensures ok { OnOk result (program_of self.new ≡ behind (program_of self.old) (value.element base length)) }
        ensures err { OnErr result (program_of self.new ≡ program_of self.old) }
    {
        self.push(WordStep::Element { base, length })
    }

    /// Pops a word and stores it in the buffer at an address, behind as many words as the word at `count` says; then raises
    /// that word by one.
    pub fn emit_word(&mut self, count: u16, buffer: u16) -> Result<(), AllocError>
        ensures ok { OnOk result (program_of self.new ≡ behind (program_of self.old) (value.emit_word count buffer)) }
        ensures err { OnErr result (program_of self.new ≡ program_of self.old) }
    {
        self.push(WordStep::EmitWord { count, buffer })
    }

    /// Stores the addresses `home` and `copy` and the number `words` in the list at an address, behind as many entries as the
    /// word at `count` says; then raises that word by one.
    pub fn list_entry(
        &mut self,
        count: u16,
        list: u16,
        home: u16,
        copy: u16,
        words: u16,
    ) -> Result<(), AllocError>
        ensures ok { OnOk result
            (program_of self.new ≡ behind (program_of self.old) (value.list_entry count list home copy words)) }
        ensures err { OnErr result (program_of self.new ≡ program_of self.old) }
    {
        self.push(WordStep::ListEntry {
            count,
            list,
            home,
            copy,
            words,
        })
    }

    /// Pops an index and pushes the element of a versioned array: its copy where its version word is the word at `list.ver`,
    /// else the element. 0 where the index isn't below the length.
    pub fn versioned_read(&mut self, place: &ArrayPlace, list: &ListPlace) -> Result<(), AllocError>
        ensures ok { OnOk result
            (program_of self.new ≡ behind (program_of self.old) (value.versioned_read place.now list.now)) }
        ensures err { OnErr result (program_of self.new ≡ program_of self.old) }
    {
        self.push(WordStep::VersionedRead(*place, *list))
    }

    /// Pops a word and the index below it, and stores the word in the element's copy; where its version word isn't the word
    /// at `list.ver`, then stores that word there, and lists the element: the last entry of the list gets a word more where its
    /// runs end right before the element and its copy, else there is an entry more. Nothing is stored where the index isn't
    /// below the length.
    pub fn versioned_write(
        &mut self,
        place: &ArrayPlace,
        list: &ListPlace,
    ) -> Result<(), AllocError>
        ensures ok { OnOk result
            (program_of self.new ≡ behind (program_of self.old) (value.versioned_write place.now list.now)) }
        ensures err { OnErr result (program_of self.new ≡ program_of self.old) }
    {
        self.push(WordStep::VersionedWrite(*place, *list))
    }

    /// Pops a word and the index below it, and stores in the element's copy what the operation gives of the element and of that
    /// word. The element is its copy where its version word is the word at `list.ver`; where it isn't, that word is stored there
    /// then, and the element is listed, as under `versioned_write`. Nothing is stored where the index isn't below the length.
    pub fn versioned_update(
        &mut self,
        operation: PlainOperation,
        place: &ArrayPlace,
        list: &ListPlace,
    ) -> Result<(), AllocError>
        ensures ok { OnOk result
            (program_of self.new ≡ behind (program_of self.old) (value.versioned_update operation place.now list.now)) }
        ensures err { OnErr result (program_of self.new ≡ program_of self.old) }
    {
        self.push(WordStep::VersionedUpdate(operation, *place, *list))
    }

    /// Pops a word and the index below it, and stores the word in the element; where its version word isn't the word at `list.ver`,
    /// it first stores an entry of the element's address and of its word in the list at `list.list`, of two words each, behind as many
    /// as the word at `list.cln` says, raises that word by one, and stores the word at `list.ver` as the version word. Nothing is
    /// stored where the index isn't below the length.
    pub fn logged_write(&mut self, place: &LoggedPlace, list: &ListPlace) -> Result<(), AllocError>
        ensures ok { OnOk result
            (program_of self.new ≡ behind (program_of self.old) (value.logged_write place.now list.now)) }
        ensures err { OnErr result (program_of self.new ≡ program_of self.old) }
    {
        self.push(WordStep::LoggedWrite(*place, *list))
    }

    /// Pops a word and the index below it, and stores in the element what the operation gives of the element and of that word; where
    /// its version word isn't the word at `list.ver`, behind what `logged_write` then stores. Nothing is stored where the index isn't
    /// below the length.
    pub fn logged_update(
        &mut self,
        operation: PlainOperation,
        place: &LoggedPlace,
        list: &ListPlace,
    ) -> Result<(), AllocError>
        ensures ok { OnOk result
            (program_of self.new ≡ behind (program_of self.old) (value.logged_update operation place.now list.now)) }
        ensures err { OnErr result (program_of self.new ≡ program_of self.old) }
    {
        self.push(WordStep::LoggedUpdate(operation, *place, *list))
    }

    /// Takes the next reading and pushes it.
    pub fn sense(&mut self) -> Result<(), AllocError>
        ensures ok { OnOk result (program_of self.new ≡ behind (program_of self.old) value.sense) }
        ensures err { OnErr result (program_of self.new ≡ program_of self.old) }
    {
        self.push(WordStep::Sense)
    }

    /// Takes the next word of the ring, as the answer, and pushes it; 0 where none waits.
    pub fn next_event(&mut self) -> Result<(), AllocError>
        ensures ok { OnOk result (program_of self.new ≡ behind (program_of self.old) value.next_event) }
        ensures err { OnErr result (program_of self.new ≡ program_of self.old) }
    {
        self.push(WordStep::NextEvent)
    }

    /// Stores the index of the next word of the ring as the one that the transition leaves.
    pub fn freeze_events(&mut self) -> Result<(), AllocError>
        ensures ok { OnOk result (program_of self.new ≡ behind (program_of self.old) value.freeze_events) }
        ensures err { OnErr result (program_of self.new ≡ program_of self.old) }
    {
        self.push(WordStep::FreezeEvents)
    }

    /// Pushes 1 where a test holds, else 0.
    pub fn truth(&mut self, test: WordTest) -> Result<(), AllocError>
        ensures ok { OnOk result (program_of self.new ≡ behind (program_of self.old) (value.truth (test_of test))) }
        ensures err { OnErr result (program_of self.new ≡ program_of self.old) }
    {
        self.push(WordStep::Truth(test))
    }

    /// Does the first program where a test holds, else the second.
    pub fn choose(
        &mut self,
        test: WordTest,
        taken: WordProgram,
        otherwise: WordProgram,
    ) -> Result<(), AllocError>
        ensures ok { OnOk result (program_of self.new
            ≡ behind (program_of self.old) (value.choose (test_of test) (program_of taken) (program_of otherwise))) }
        ensures err { OnErr result (program_of self.new ≡ program_of self.old) }
    {
        self.push(WordStep::Choose(test, taken.steps, otherwise.steps))
    }

    /// Does a program for each number of a local, from one number on, below another; behind them the local is the number
    /// after the last.
    pub fn repeat(
        &mut self,
        local: u16,
        from: u16,
        below: u16,
        body: WordProgram,
    ) -> Result<(), AllocError>
        ensures ok { OnOk result (program_of self.new
            ≡ behind (program_of self.old) (value.repeat local from below (program_of body))) }
        ensures err { OnErr result (program_of self.new ≡ program_of self.old) }
    {
        self.push(WordStep::Repeat {
            local,
            from,
            below,
            body: body.steps,
        })
    }

    /// Stores a number at an address.
    pub fn store_number(&mut self, address: u16, word: u16) -> Result<(), AllocError>
        ensures ok { OnOk result (program_of self.new ≡ behind (program_of self.old) (value.store_number address word)) }
        ensures err { OnErr result (program_of self.new ≡ program_of self.old) }
    {
        self.push(WordStep::StoreNumber { address, word })
    }

    /// Stores the word at one address at another.
    pub fn move_word(&mut self, from: u16, to: u16) -> Result<(), AllocError>
        ensures ok { OnOk result (program_of self.new ≡ behind (program_of self.old) (value.move_word from to)) }
        ensures err { OnErr result (program_of self.new ≡ program_of self.old) }
    {
        self.push(WordStep::MoveWord { from, to })
    }

    /// Leaves for the code at an address. Steps behind this one are never done.
    pub fn jump(&mut self, to: u16) -> Result<(), AllocError>
        ensures ok { OnOk result (program_of self.new ≡ behind (program_of self.old) (value.jump to)) }
        ensures err { OnErr result (program_of self.new ≡ program_of self.old) }
    {
        self.push(WordStep::Jump(to))
    }
    /// Calls the function whose code begins at an address: pops so many words, of which the top is the last parameter's, and pushes
    /// the word that the function gives. Its parameters are locals from the first on. Where its locals stand in RAM they begin at
    /// its frame. What the function does isn't a part of the step.
    pub fn call(
        &mut self,
        entry: u16,
        frame: Option<u16>,
        first: u16,
        count: u16,
    ) -> Result<(), AllocError>
        ensures ok { OnOk result
            (program_of self.new ≡ behind (program_of self.old) (value.call entry frame first count nothing)) }
        ensures err { OnErr result (program_of self.new ≡ program_of self.old) }
    {
        self.push(WordStep::Call {
            entry,
            frame,
            first,
            count,
        })
    }

    /// In a function: pops a word and ends with it. Steps behind this one are never done.
    pub fn give(&mut self) -> Result<(), AllocError>
        ensures ok { OnOk result (program_of self.new ≡ behind (program_of self.old) value.give) }
        ensures err { OnErr result (program_of self.new ≡ program_of self.old) }
    {
        self.push(WordStep::Give)
    }
}

//! Each call of the outside failing in turn: the program is called again and again with the same words over the same files.
//!
//! A read that fails is answered by status 3 and the file's name, a put by status 4 and the file's name: nothing is written, and
//! nothing is put. A write that fails is answered by status 4: a proper front of the output is written, and the file is put whole.
//! Where a write to standard error fails too, its line breaks off, and nothing else differs.
use alpaca_cli::{MemShelf, MemSink, Shelf, Status, alpaca};
use anyhow::Result;
use std::alloc::{AllocError, Global};

/// An output of the program holds no more bytes than these.
pub const ROOM: usize = 1_048_576;

// More calls of a kind than any run makes.
const MOST: usize = 1000;

#[derive(Clone, Copy, PartialEq, Eq)]
enum Kind {
    Read,
    Put,
    Write,
    Tell,
}

// A call that fails, counted from 0 among those of its kind, and a write to standard error that fails behind it.
#[derive(Clone, Copy)]
struct Fault {
    kind: Kind,
    call: usize,
    tell: Option<usize>,
}

// What a run left.
#[derive(Drop)]
struct Run {
    status: Status,
    shelf: MemShelf,
    out: MemSink,
    err: MemSink,
}

// What a turn shows of its call.
#[derive(Clone, Copy)]
enum Turn {
    /// The run makes no such call.
    Past,
    /// It failed, and was answered as it has to be.
    Answered,
    /// It was answered otherwise.
    Differs,
}

/// The words of a call, and the files that it begins with.
#[derive(Clone, Copy)]
pub struct Turns<'a> {
    pub alloc: Global,
    pub words: &'a [String],
    pub files: &'a MemShelf,
    /// The names of all these files.
    pub names: &'a [String],
}

// The call that fails, where it is of this kind.
fn call_of(fault: Option<Fault>, kind: Kind) -> Option<usize> {
    match fault {
        Some(fault) if fault.kind == kind => Some(fault.call),
        _ => None,
    }
}

// The write to standard error that fails.
fn tell_of(fault: Option<Fault>) -> Option<usize> {
    match fault {
        Some(fault) if fault.kind == Kind::Tell => Some(fault.call),
        Some(fault) => fault.tell,
        None => None,
    }
}

// A list of this call behind so many others, or an empty one.
fn list_of(alloc: Global, behind: usize, call: Option<usize>) -> Result<Vec<u64>, AllocError> {
    let mut list = Vec::new(alloc);
    if let Some(call) = call {
        list.push(behind.saturating_add(call) as u64)?;
    }
    Ok(list)
}

fn sink_of(alloc: Global, failing: Option<usize>) -> Result<MemSink> {
    let failing = list_of(alloc, 0, failing)?;
    Ok(MemSink::new(alloc, ROOM, failing)?)
}

// A proper front of a text.
fn is_front(front: &[u8], whole: &[u8]) -> bool {
    front.len() < whole.len() && whole.starts_with(front)
}

// Two runs left the same outputs and the same file.
fn are_alike(a: &Run, b: &Run, file: &str) -> bool {
    a.status == b.status
        && a.out.bytes() == b.out.bytes()
        && a.err.bytes() == b.err.bytes()
        && a.shelf.file(file) == b.shelf.file(file)
}

impl<'a> Turns<'a> {
    // The last word, under which a file is put.
    fn image(&self) -> &str {
        match self.words.last() {
            Some(word) => word.as_str(),
            None => "",
        }
    }

    // The files, behind whose own puts a read and a put fail.
    fn shelf(&self, read: Option<usize>, put: Option<usize>) -> Result<MemShelf> {
        let reads = list_of(self.alloc, 0, read)?;
        let puts = list_of(self.alloc, self.names.len(), put)?;
        let mut shelf = MemShelf::new(Vec::new(self.alloc), reads, puts);
        for name in self.names {
            let bytes = self.files.file(name).unwrap_or(b"");
            shelf.put(self.alloc, name, bytes)?;
        }
        Ok(shelf)
    }

    // Calls the program, where this fails.
    fn run(&self, fault: Option<Fault>) -> Result<Run> {
        let mut shelf = self.shelf(call_of(fault, Kind::Read), call_of(fault, Kind::Put))?;
        let mut out = sink_of(self.alloc, call_of(fault, Kind::Write))?;
        let mut err = sink_of(self.alloc, tell_of(fault))?;
        let status = alpaca(self.alloc, self.words, &mut shelf, &mut out, &mut err);
        Ok(Run {
            status,
            shelf,
            out,
            err,
        })
    }

    // Whether a run told that this call failed; where it is the telling that failed, whether it broke off.
    fn has_told(&self, fault: Fault, found: &Run, whole: &Run) -> Result<bool> {
        let err = found.err.bytes();
        if fault.kind == Kind::Tell {
            return Ok(is_front(err, whole.err.bytes()));
        }
        let line = self.line_of(fault)?;
        Ok(err == line.as_bytes())
    }

    // The line that tells of a call that failed.
    fn line_of(&self, fault: Fault) -> Result<String> {
        let line = match fault.kind {
            Kind::Read => {
                let read = self.words.iter().nth(fault.call.saturating_add(1));
                let name = match read {
                    Some(word) => word.as_str(),
                    None => "",
                };
                format!(in self.alloc; "cannot read {name}\n")?
            }
            Kind::Put => {
                let name = self.image();
                format!(in self.alloc; "cannot write {name}\n")?
            }
            Kind::Write | Kind::Tell => String::from_str(self.alloc, "cannot write output\n")?,
        };
        Ok(line)
    }

    // Whether a run ended as one has to whose call failed, but for what it told.
    fn has_ended(&self, fault: Fault, found: &Run, whole: &Run) -> bool {
        let image = self.image();
        let written = found.out.bytes();
        let put = found.shelf.file(image);
        let is_untouched = written.is_empty() && put == self.files.file(image);
        let is_put = put == whole.shelf.file(image);
        match fault.kind {
            Kind::Read => found.status == Status::Unreadable && is_untouched,
            Kind::Put => found.status == Status::Unwritable && is_untouched,
            Kind::Write => {
                found.status == Status::Unwritable && is_front(written, whole.out.bytes()) && is_put
            }
            Kind::Tell => { found.status == whole.status && written == whole.out.bytes() && is_put }
        }
    }

    // Each write of the line on standard error fails in turn.
    fn telling(&self, fault: Fault, told: &Run, whole: &Run) -> Result<Turn> {
        for tell in 0..MOST {
            let found = self.run(Some(Fault {
                tell: Some(tell),
                ..fault
            }))?;
            if are_alike(&found, told, self.image()) {
                return Ok(Turn::Answered);
            }
            if !self.has_ended(fault, &found, whole)
                || !is_front(found.err.bytes(), told.err.bytes())
            {
                return Ok(Turn::Differs);
            }
        }
        Ok(Turn::Differs)
    }

    // This call fails, by itself and with each write to standard error.
    fn turn(&self, fault: Fault, whole: &Run) -> Result<Turn> {
        let found = self.run(Some(fault))?;
        if are_alike(&found, whole, self.image()) {
            return Ok(Turn::Past);
        }
        if !self.has_ended(fault, &found, whole) || !self.has_told(fault, &found, whole)? {
            return Ok(Turn::Differs);
        }
        if fault.kind == Kind::Tell {
            return Ok(Turn::Answered);
        }
        self.telling(fault, &found, whole)
    }

    // How many calls of this kind fail in turn; nothing where one is answered otherwise than it has to be.
    fn count(&self, kind: Kind, whole: &Run) -> Result<Option<usize>> {
        for call in 0..MOST {
            let fault = Fault {
                kind,
                call,
                tell: None,
            };
            match self.turn(fault, whole)? {
                Turn::Past => return Ok(Some(call)),
                Turn::Answered => {}
                Turn::Differs => return Ok(None),
            }
        }
        Ok(None)
    }

    /// How many reads, puts, writes and writes to standard error fail in turn; `?` where one is answered otherwise than it has to be.
    pub fn failed(&self) -> Result<String> {
        let whole = self.run(None)?;
        let mut said = String::new(self.alloc);
        for kind in [Kind::Read, Kind::Put, Kind::Write, Kind::Tell] {
            if !said.is_empty() {
                said.push_str(" ")?;
            }
            match self.count(kind, &whole)? {
                Some(calls) => said.push_str(&format!(in self.alloc; "{calls}")?)?,
                None => said.push_str("?")?,
            }
        }
        Ok(said)
    }
}

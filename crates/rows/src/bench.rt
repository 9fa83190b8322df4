//! Files in memory, a call of the program over them, and what of its answer no part has said yet.
use crate::calls::{
    is_compiled, is_first_word, is_image_printed, is_kept, is_printed, is_word_decided,
};
use crate::parts::Part;
use crate::series::Series;
use crate::turns::{ROOM, Turns};
use alpaca_cli::{MemShelf, MemSink, Shelf, alpaca};
use anyhow::Result;
use std::alloc::Global;

/// The files of a row, the outside's calls that fail in it, and what of the last call's answer isn't said yet.
#[derive(Drop)]
pub struct Bench {
    rt: HostRuntime,
    alloc: Global,
    failing: Failing,
    series: Series,
    shelf: MemShelf,
    /// The names of the row's files.
    names: Vec<String>,
    /// How many calls failed in turns, as a row says it.
    failed: String,
    status: u8,
    out: Vec<u8>,
    err: Vec<u8>,
    /// How often the program was called.
    pub calls: u64,
}

// The calls that fail: reads and puts counted over a row, its own files' puts among them, and writes over a call.
#[derive(Drop)]
struct Failing {
    reads: Vec<u64>,
    puts: Vec<u64>,
    writes: Vec<u64>,
    tells: Vec<u64>,
}

impl Failing {
    fn none(alloc: Global) -> Failing {
        Failing {
            reads: Vec::new(alloc),
            puts: Vec::new(alloc),
            writes: Vec::new(alloc),
            tells: Vec::new(alloc),
        }
    }

    // Sets `KIND N N ..`; false where that is none.
    fn set(&mut self, said: &str) -> Result<bool> {
        let mut words = said.split_whitespace();
        let list = match words.next().unwrap_or("").as_bytes() {
            b"reads" => &mut self.reads,
            b"puts" => &mut self.puts,
            b"writes" => &mut self.writes,
            b"tells" => &mut self.tells,
            _ => return Ok(false),
        };
        list.clear();
        for word in words {
            match word.parse::<u64>() {
                Ok(call) => list.push(call)?,
                Err(_) => return Ok(false),
            }
        }
        Ok(true)
    }

    // No files, whose reads and puts fail so.
    fn shelf(&self, alloc: Global) -> Result<MemShelf> {
        let reads = self.reads.to_vec(alloc)?;
        let puts = self.puts.to_vec(alloc)?;
        Ok(MemShelf::new(Vec::new(alloc), reads, puts))
    }
}

// What the program tells of words that are no line.
const USAGE: &[u8] =
    b"usage: alpaca mean SRC TRACE | try SRC TRACE IMAGE | build SRC IMAGE | run IMAGE TRACE | asm ASM IMAGE | dis IMAGE | gen N IMAGE \
      | save IMAGE TRACE STATE | resume IMAGE STATE TRACE | migrate SRC IMAGE STATE NEWSRC NEWIMAGE NEWSTATE | undo SRC TRACE IMAGE | audit SRC REPORT TRACE\n";

// Whether an output is this text; it is said then.
fn is_said(found: &mut Vec<u8>, text: &[u8]) -> bool {
    let met = found.as_slice() == text;
    if met {
        found.clear();
    }
    met
}

// The words of a line and of the text behind it.
fn words_of(alloc: Global, said: &str, text: &[u8]) -> Result<Vec<String>> {
    let mut words = Vec::new(alloc);
    push_words(alloc, said, &mut words)?;
    let more = String::from_utf8_lossy(alloc, text)?;
    push_words(alloc, &more, &mut words)?;
    Ok(words)
}

fn push_words(alloc: Global, said: &str, into: &mut Vec<String>) -> Result<()> {
    for word in said.split_whitespace() {
        into.push(String::from_str(alloc, word)?)?;
    }
    Ok(())
}

impl Bench {
    /// No file, no failing call, and nothing that isn't said.
    pub fn new(rt: HostRuntime) -> Bench {
        let alloc = rt.alloc();
        Bench {
            rt,
            alloc,
            failing: Failing::none(alloc),
            series: Series::none(alloc),
            shelf: MemShelf::new(Vec::new(alloc), Vec::new(alloc), Vec::new(alloc)),
            names: Vec::new(alloc),
            failed: String::new(alloc),
            status: 0,
            out: Vec::new(alloc),
            err: Vec::new(alloc),
            calls: 0,
        }
    }

    /// Takes the next part. What was found in place of what it says, where that differs.
    pub fn take(&mut self, part: &Part<'_>) -> Result<Option<String>> {
        let (kind, said) = part.head.split_once(" ").unwrap_or((part.head, ""));
        match kind.as_bytes() {
            b"row" => self.begin(),
            b"call" => self.call(said, &part.text),
            b"each" => self.call_in_turns(said, &part.text),
            b"usage" => self.call_for_usage(said, &part.text),
            b"accepted" | b"refused" | b"fault" | b"end" => self.call_over(kind, part),
            _ => {
                let met = self.is_met(kind, said, &part.text)?;
                self.unmet(met)
            }
        }
    }

    // What was found, where a part isn't met.
    fn unmet(&self, met: bool) -> Result<Option<String>> {
        if met {
            Ok(None)
        } else {
            Ok(Some(self.found()?))
        }
    }

    // Whether a part that doesn't call the program is met.
    fn is_met(&mut self, kind: &str, said: &str, text: &[u8]) -> Result<bool> {
        match kind.as_bytes() {
            b"failing" => self.fail(said),
            b"file" => self.put(said, text),
            b"with" => self.begin_series(said, text),
            b"keep" => self.keep(said),
            b"shows" => self.is_shown(said, text),
            b"prints" | b"compiles" | b"word" | b"decides" | b"real" => self.calls_below(
                kind, said, text,
            ),
            b"holds" | b"has" | b"lacks" | b"like" | b"size" => Ok(self.are_so(kind, said, text)),
            _ => Ok(self.says(kind, said, text)),
        }
    }

    // Whether the files are as such a part says.
    fn are_so(&self, kind: &str, said: &str, text: &[u8]) -> bool {
        match kind.as_bytes() {
            b"holds" => self.shelf.file(said) == Some(text),
            b"has" => self.shelf.file(said).is_some(),
            b"lacks" => self.shelf.file(said).is_none(),
            b"like" => self.are_like(said),
            _ => self.has_size(said),
        }
    }

    // Whether the last answer is as such a part says; what it says is said then.
    fn says(&mut self, kind: &str, said: &str, text: &[u8]) -> bool {
        match kind.as_bytes() {
            b"failed" => self.says_failed(said),
            b"status" => self.says_status(said),
            b"out" => is_said(&mut self.out, text),
            b"err" => is_said(&mut self.err, text),
            b"begins" => self.says_begin(text),
            b"ends" => self.says_end(said, text),
            _ => false,
        }
    }

    // The answer as far as it isn't said, to be printed.
    fn found(&self) -> Result<String> {
        let out = String::from_utf8_lossy(self.alloc, &self.out)?;
        let err = String::from_utf8_lossy(self.alloc, &self.err)?;
        Ok(format!(in self.alloc;
            "status {}, out {out:?}, err {err:?}, failed {}",
            self.status, self.failed
        )?)
    }

    // Whether the output begins so; it is said then.
    fn says_begin(&mut self, front: &[u8]) -> bool {
        let met = self.out.starts_with(front);
        if met {
            self.out.clear();
        }
        met
    }

    // Whether the output has so many lines, and ends so; it is said then.
    fn says_end(&mut self, lines: &str, end: &[u8]) -> bool {
        let count = self.out.iter().filter(|byte| **byte == b'\n').count();
        let met = lines.parse::<usize>() == Ok(count) && self.out.ends_with(end);
        if met {
            self.out.clear();
        }
        met
    }

    // Whether a text of so many bytes stands under a name.
    fn has_size(&self, said: &str) -> bool {
        match said.split_once(" ") {
            Some((name, size)) => {
                let bytes = self.shelf.file(name).unwrap_or(b"");
                size.parse::<usize>() == Ok(bytes.len())
            }
            None => false,
        }
    }

    // Whether this text stands somewhere in the one under a name.
    fn is_shown(&self, name: &str, text: &[u8]) -> Result<bool> {
        let bytes = self.shelf.file(name).unwrap_or(b"");
        let whole = String::from_utf8_lossy(self.alloc, bytes)?;
        let part = String::from_utf8_lossy(self.alloc, text)?;
        Ok(whole.split_once(part.as_str()).is_some())
    }

    // Whether a call that the program doesn't make answers so.
    fn calls_below(&self, kind: &str, said: &str, text: &[u8]) -> Result<bool> {
        let (front, name) = said.rsplit_once(" ").unwrap_or(("", said));
        let file = self.shelf.file(name).unwrap_or(b"");
        match kind.as_bytes() {
            b"prints" if front == "image" => is_image_printed(self.alloc, file, text),
            b"prints" => is_printed(self.alloc, file, text),
            b"compiles" => {
                let source = self.shelf.file(front).unwrap_or(b"");
                is_compiled(self.alloc, source, file)
            }
            b"word" => is_first_word(self.alloc, file, front, text),
            b"decides" => is_word_decided(self.alloc, file, front, text),
            _ => is_kept(self.rt, name, file),
        }
    }

    // Whether the status is this; it is said then.
    fn says_status(&mut self, said: &str) -> bool {
        let met = said.parse::<u8>() == Ok(self.status);
        if met {
            self.status = 0;
        }
        met
    }

    // A row begins: no file, no failing call.
    fn begin(&mut self) -> Result<Option<String>> {
        self.failing = Failing::none(self.alloc);
        self.names.clear();
        self.shelf = self.failing.shelf(self.alloc)?;
        self.unsaid()
    }

    fn fail(&mut self, said: &str) -> Result<bool> {
        let is_set = self.failing.set(said)?;
        if said.starts_with("reads ") || said.starts_with("puts ") {
            self.names.clear();
            self.shelf = self.failing.shelf(self.alloc)?;
        }
        Ok(is_set)
    }

    // The file of a row stands; a row's own puts don't fail.
    fn put(&mut self, name: &str, text: &[u8]) -> Result<bool> {
        self.shelf.put(self.alloc, name, text)?;
        self.names.push(String::from_str(self.alloc, name)?)?;
        Ok(true)
    }

    // Each call of the outside fails in turn, and then none does.
    fn call_in_turns(&mut self, said: &str, text: &[u8]) -> Result<Option<String>> {
        let words = words_of(self.alloc, said, text)?;
        let turns = Turns {
            alloc: self.alloc,
            words: &words,
            files: &self.shelf,
            names: &self.names,
        };
        let failed = turns.failed()?;
        let unsaid = self.call(said, text)?;
        self.failed = failed;
        Ok(unsaid)
    }

    // Whether so many calls failed in turns; it is said then.
    fn says_failed(&mut self, said: &str) -> bool {
        let met = self.failed.as_str() == said;
        if met {
            self.failed.clear();
        }
        met
    }

    // Calls the program with these words.
    fn call(&mut self, said: &str, text: &[u8]) -> Result<Option<String>> {
        let unsaid = self.unsaid()?;
        let list = words_of(self.alloc, said, text)?;
        let mut out = MemSink::new(self.alloc, ROOM, self.failing.writes.to_vec(self.alloc)?)?;
        let mut err = MemSink::new(self.alloc, ROOM, self.failing.tells.to_vec(self.alloc)?)?;
        let status = alpaca(self.alloc, &list, &mut self.shelf, &mut out, &mut err);
        self.note_put(&list)?;
        self.status = status.code();
        self.out = out.bytes().to_vec(self.alloc)?;
        self.err = err.bytes().to_vec(self.alloc)?;
        self.calls = self.calls.saturating_add(1);
        Ok(unsaid)
    }

    // A series begins: `NAME WORD ..`, and what stands in front of each of its texts.
    fn begin_series(&mut self, said: &str, front: &[u8]) -> Result<bool> {
        self.series = Series::of(self.alloc, said, front)?;
        Ok(true)
    }

    // Calls the program over a text of the series, which it answers so.
    fn call_over(&mut self, kind: &str, part: &Part<'_>) -> Result<Option<String>> {
        let text = self.series.text(self.alloc, &part.text)?;
        self.shelf.put(self.alloc, &self.series.name, &text)?;
        let words = String::from_str(self.alloc, &self.series.words)?;
        let unsaid = self.call(&words, b"")?;
        self.is_answered(kind, part.head, unsaid)
    }

    // Calls the program with words that are no line.
    fn call_for_usage(&mut self, said: &str, text: &[u8]) -> Result<Option<String>> {
        let unsaid = self.call(said, text)?;
        self.is_answered("usage", "", unsaid)
    }

    // What isn't said yet of an earlier answer, or what the last one is where it isn't as its part says.
    fn is_answered(
        &mut self,
        kind: &str,
        head: &str,
        unsaid: Option<String>,
    ) -> Result<Option<String>> {
        if unsaid.is_some() || self.says_answer(kind, head)? {
            return Ok(unsaid);
        }
        Ok(Some(self.found()?))
    }

    // Whether the answer is the one of such a part, whose head is the line that is told; it is said then.
    fn says_answer(&mut self, kind: &str, head: &str) -> Result<bool> {
        let line = format!(in self.alloc; "{head}\n")?;
        let met = match kind.as_bytes() {
            b"refused" => self.says_status("1") && is_said(&mut self.err, line.as_bytes()),
            b"usage" => self.says_status("2") && is_said(&mut self.err, USAGE),
            b"fault" => self.says_status("6")
                && is_said(&mut self.out, line.as_bytes())
                && is_said(&mut self.err, b"machine fault\n"),
            b"end" => is_said(&mut self.out, line.as_bytes()),
            _ => self.says_no_fault(),
        };
        Ok(met)
    }

    // Whether the call was answered well; what it wrote is said then.
    fn says_no_fault(&mut self) -> bool {
        self.out.clear();
        self.status == 0 && self.err.is_empty()
    }

    // The file under the last word is one of the row's from now on.
    fn note_put(&mut self, words: &[String]) -> Result<()> {
        if let Some(word) = words.last() {
            if self.shelf.file(word).is_some() {
                self.names.push(String::from_str(self.alloc, word)?)?;
            }
        }
        Ok(())
    }

    // Puts the output under a name.
    fn keep(&mut self, name: &str) -> Result<bool> {
        self.shelf.put(self.alloc, name, &self.out)?;
        self.out.clear();
        Ok(true)
    }

    // Two files hold the same.
    fn are_like(&self, names: &str) -> bool {
        match names.split_once(" ") {
            Some((a, b)) => self.shelf.file(a).is_some()
                && self.shelf.file(a) == self.shelf.file(b),
            None => false,
        }
    }

    /// What of the last call's answer no part has said: each other status than 0, and each byte written.
    pub fn unsaid(&mut self) -> Result<Option<String>> {
        if self.status == 0
            && self.out.is_empty()
            && self.err.is_empty()
            && self.failed.is_empty()
        {
            return Ok(None);
        }
        let found = self.found()?;
        self.status = 0;
        self.out.clear();
        self.err.clear();
        self.failed.clear();
        Ok(Some(found))
    }
}

//! Words that no row has: empty ones.
use command_line::{Command, WordsFault, command_lines, command_of};
use std::alloc::{AllocError, Global};
use std::test::Fail;

fn owned(alloc: Global, texts: &[&str]) -> Result<Vec<String>, AllocError> {
    let mut words = Vec::new(alloc);
    for text in texts {
        words.push(String::from_str(alloc, text)?)?;
    }
    Ok(words)
}

// The words are no line.
fn is_usage(alloc: Global, texts: &[&str]) -> Result<bool, AllocError> {
    let words = owned(alloc, texts)?;
    Ok(matches!(command_of(alloc, words.as_slice()), Err(WordsFault::Usage)))
}

#[test]
fn empty_words(rt: HostRuntime) -> Result<(), Fail> {
    let alloc = rt.alloc();
    let words = owned(alloc, &["mean", "mean", ""])?;
    let read = command_of(alloc, words.as_slice());
    assert!(rt;
        matches!(
            read,
            Ok(Command::Mean {
                source: "mean",
                trace: ""
            })
        )
    );
    assert!(rt; is_usage(alloc, &[""])?);
    assert!(rt; is_usage(alloc, &["gen", "", "i"])?);
    command_lines();
    Ok(())
}

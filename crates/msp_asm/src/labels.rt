//! The labels of a text.
ghost use Rattle.std.specs.Prelude.{◌≡◌, OnOk, option_map};
ghost use Rattle.msp_asm.specs.Labels.{label_at, with_label};
ghost use Rattle.msp_asm.specs.Assembled.{note};
ghost use Rattle.asm_line.specs.Views.{located};

use asm_line::Piece;
use std::alloc::AllocError;
use std::collections::BTreeMap;

/// Where a label stands first: its address and its line.
#[derive(Clone, Copy)]
pub struct Place {
    pub address: u16,
    pub line: u32,
}

pub type Labels<'a> = BTreeMap<&'a [u8], Place>;

/// Where a label stands first.
pub fn place_of<'a>(labels: &Labels<'a>, name: &'a [u8]) -> Option<Place>
    ensures { result ≡ label_at labels.now name.now }
{
    labels.get(&name).copied()
}

// Adds a label, unless there is one of that name.
fn add_label<'a>(labels: &mut Labels<'a>, name: &'a [u8], place: Place) -> Result<(), AllocError>
    ensures { OnOk result (label_at labels.new ≡ with_label (label_at labels.old) name.now place) }
{
    if place_of(labels, name).is_some() {
        return Ok(());
    }
    labels.insert(name, place)?;
    Ok(())
}

/// Adds the label of a line that has one, unless it stands before.
pub fn note<'a>(
    labels: &mut Labels<'a>,
    label: Option<Piece<'a>>,
    place: Place,
) -> Result<(), AllocError>
    ensures { OnOk result (label_at labels.new ≡ note (label_at labels.old) (option_map located label.entry) place) }
{
    match label {
        Some(name) => add_label(labels, name.text, place),
        None => Ok(()),
    }
}

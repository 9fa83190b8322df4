//! The law of images, and that of images that go on from saved states. The functions do nothing: their contracts are the laws.

ghost use Rattle.image_reports.specs.ImageLaw.{ImagesKeepTheLaws};
ghost use Rattle.image_reports.specs.Resumed.{ImagesBelong, ImagesResume};

/// Every run of the image of an accepted text, under any charges, from any words that the power-ups leave, on any readings and events,
/// keeps the laws at each boundary between two instructions: its effects are a prefix of boot, start, task and commit; its board is
/// undecided at the source's state or decided to the next one, which is never lost; each word is accepted once; the counts keep to their
/// capacities, and SP to the stack of the task in whose code it stands; and what is fetched is the image's own code, or its handler's where the
/// source takes events, which may begin between any two of the code's instructions and has its room on the stack. Each event that arose was accepted, was lost, or waits. It stops only where
/// the source is short of readings; a charge of n bounds, and of 100 for each event that arises in it, that is spent has n transitions, as
/// has one that holds the bounds of the next n tasks; and the report is told by the source.
pub fn images_keep_the_laws()
    ensures { ImagesKeepTheLaws }
{}

/// From an image's fresh board such a run may begin: so each of the boards of its runs is one from which a run may go on.
pub fn images_belong()
    ensures { ImagesBelong }
{}

/// Every run that goes on from a saved state of such an image, with any sound words in the FRAM, keeps the same laws, and from each of its
/// boards a run may go on. Where no commit is pending, its report is told from the state that the words are; else the first transition of
/// the report is what that commit leaves, and the source tells the rest from there on.
pub fn images_resume()
    ensures { ImagesResume }
{}

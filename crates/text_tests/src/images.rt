//! The words of an image by their addresses.
use image_text::Image;
use std::test::Fail;

#[test]
fn words_stand_at_even_addresses_of_fram(rt: HostRuntime) -> Result<(), Fail> {
    let mut image = Image::blank(rt.alloc())?;
    image.set(0x4404, 4);
    for (address, word) in [
        (0x4404, Some(4)),
        (0x4406, Some(0)),
        (0x4401, None),
        (0x1c00, None),
    ] {
        assert_eq!(rt; image.word(address), word);
    }
    assert_eq!(rt; image.words().len(), 24064);
    assert!(rt; image.map().is_none());
    Ok(())
}

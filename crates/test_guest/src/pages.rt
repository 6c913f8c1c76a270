// A page that is checked by a digest which is kept.
use host_traits::Raw;
use mg_base::{Page, Salt, pad_into};
use sha_tree::hash_page;
use std::test::Fail;
use verity_path::{Anchor, Served, check};

// The page of a short answer, and a part of it: behind the bytes are zeros.
#[test]
fn serves_a_part(rt: HostRuntime) -> Result<(), Fail> {
    let mut raw = Raw::new(rt.alloc())?;
    raw.put(b"measured");
    let mut page = Page::new(rt.alloc())?;
    pad_into(b"measured", &mut page);
    let anchor = Anchor::kept(Salt::none(), 0, 5, hash_page(&Salt::none(), &page));
    let mut served = Served::new(rt.alloc())?;
    match check(&raw, 0, 8, &anchor, &mut page) {
        Ok(block) => served.push(&block, 4, 9),
        Err(_) => return Err(Fail::new("no block")),
    }
    assert!(rt; served.bytes() == b"ured\0".as_slice());
    Ok(())
}

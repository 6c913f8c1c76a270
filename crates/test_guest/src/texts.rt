// Plans and store lists that are read, and a plan that is written.
use guest_plan::{Plan, read_plan, read_store, write_plan};
use std::test::Fail;

const ZEROS: &str = "0000000000000000000000000000000000000000000000000000000000000000";

#[test]
fn reads_each_line_of_a_plan(rt: HostRuntime) -> Result<(), Fail> {
    let alloc = rt.alloc();
    let lines =
        "apk 0 a b first\napk 1 c .. record 0fc63daf-8483-4772-8e79-3d69d8477de4\ninstance 2 vm\n";
    let files = "write w 3\nwritedir d 4\n";
    let text = format!(in alloc;
        "plan 1\nblob 7 2 - {ZEROS}\napk 0 a b fixed 299 ab {ZEROS}\n{lines}file r 2 {ZEROS}\n{files}salt {ZEROS}{ZEROS}\nsecret {ZEROS}\n"
    )?;
    let plan = read_plan(alloc, text.as_bytes())?;
    assert_eq!(rt; plan.lines.len(), 8);
    assert!(rt; plan.secret.is_some() && plan.salt.is_some());
    Ok(())
}

#[test]
fn reads_each_line_of_a_store_list(rt: HostRuntime) -> Result<(), Fail> {
    let text =
        b"store 1\ndisk 0 a\ncomposite 1 c\nverity 0 d/e -\nempty 1\ndir 2\nkeep file 1 w\nkeep disk 1 x\n";
    let store = read_store(rt.alloc(), text)?;
    assert_eq!(rt; store.lines.len(), 7);
    Ok(())
}

#[test]
fn writes_a_plan(rt: HostRuntime) -> Result<(), Fail> {
    let alloc = rt.alloc();
    let plan = Plan {
        secret: None,
        salt: None,
        lines: Vec::new(alloc),
        numbers: Vec::new(alloc),
    };
    let mut text = Vec::new(alloc);
    write_plan(alloc, &plan, &mut text)?;
    assert!(rt; text.as_slice() == b"plan 1\n".as_slice());
    Ok(())
}

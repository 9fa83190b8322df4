//! The layout of a whole text, with the places that no image shows. The addresses are counted by hand from the order and the sizes.
use privatise::{ArrayCopies, Layout, PrivateScalar, Region, ScalarWidth, VariablePlace, layout};
use source_meaning::accept;
use std::alloc::Global;
use war_analysis::analyse;

// The layout of a text that no pass refuses.
fn layout_of(alloc: Global, text: &'static str) -> Option<Layout> {
    let source = text.as_bytes();
    if source.len() >= 4_294_967_295 {
        return None;
    }
    let Ok(accepted) = accept(alloc, source) else {
        return None;
    };
    let checked = accepted.checked();
    let Ok(plan) = analyse(alloc, checked) else {
        return None;
    };
    match layout(alloc, checked, accepted.allow(), &plan) {
        Ok(layout) => Some(layout),
        Err(_) => None,
    }
}

// Whether a task's layout has these private scalars, and its code this region.
fn is_task(layout: &Layout, task: usize, privates: &[PrivateScalar], code: Region) -> bool {
    match layout.tasks().get(task) {
        Some(task) => *task.privates() == *privates && task.code() == code,
        None => false,
    }
}

fn region(address: u16, words: u32) -> Region {
    Region { address, words }
}

const TWO: &str = "shared unsigned x; shared int a[4]; shared unsigned b[3]; shared unsigned y;
    task t { a[0] = b[1]; y = y; transition_to(u); } task u { x = 1; transition_to(t); } entry t;";

// 1365 words: 8, two entries of 3, 4 versions, 1 + 4 + 3 + 1 words of variables, 1 + 4 + 1 of copies, a boot of
// 391 + 216 + 216, a commit of 200, tasks of 116 + 40 + 56 and of 40 + 56, and the vector.
#[test]
fn arrays_and_two_tasks(rt: HostRuntime) {
    let Some(layout) = layout_of(rt.alloc(), TWO) else {
        assert!(rt; false);
        return;
    };
    assert!(rt; layout.list() == region(0x4410, 6) && layout.emits() == region(0x441C, 0));
    assert!(rt; layout.entries() == 2 && layout.versions() == region(0x441C, 4));
    assert!(rt; layout.homes() == region(0x4424, 9) && layout.copies() == region(0x4436, 6));
    let x = VariablePlace::Scalar {
        home: 0x4424,
        copy: 0x4436,
        width: ScalarWidth::OneWord,
    };
    let a = VariablePlace::Array {
        elements: 0x4426,
        length: 4,
        copies: Some(ArrayCopies {
            copies: 0x4438,
            versions: 0x441C,
        }),
    };
    let b = VariablePlace::Array {
        elements: 0x442E,
        length: 3,
        copies: None,
    };
    let y = VariablePlace::Scalar {
        home: 0x4434,
        copy: 0x4440,
        width: ScalarWidth::OneWord,
    };
    assert!(rt; layout.variables() == [x, a, b, y].as_slice());
    assert!(rt; layout.boot() == region(0x4442, 823) && layout.commit() == region(0x4AB0, 200));
    assert!(rt; layout.code() == region(0x4C40, 308));
    let private_y = PrivateScalar {
        number: 3,
        home: 0x4434,
        copy: 0x4440,
        width: ScalarWidth::OneWord,
    };
    assert!(rt; is_task(&layout, 0, &[private_y], region(0x4C40, 212)));
    assert!(rt; is_task(&layout, 1, &[], region(0x4DE8, 96)));
}

const LONG: &str = "shared unsigned long n = 70000UL; shared unsigned x;
    task t { n = n + x; transition_to(t); } entry t;";

// The commit list has room for both words of n, which has two words and a copy of two.
#[test]
fn a_long_has_two_words(rt: HostRuntime) {
    let Some(layout) = layout_of(rt.alloc(), LONG) else {
        assert!(rt; false);
        return;
    };
    assert!(rt; layout.list() == region(0x4410, 6) && layout.entries() == 2);
    assert!(rt; layout.homes() == region(0x441C, 3) && layout.copies() == region(0x4422, 3));
    let n = VariablePlace::Scalar {
        home: 0x441C,
        copy: 0x4422,
        width: ScalarWidth::TwoWords,
    };
    let x = VariablePlace::Scalar {
        home: 0x4420,
        copy: 0x4426,
        width: ScalarWidth::OneWord,
    };
    assert!(rt; layout.variables() == [n, x].as_slice());
    let private_n = PrivateScalar {
        number: 0,
        home: 0x441C,
        copy: 0x4422,
        width: ScalarWidth::TwoWords,
    };
    let Some(task) = layout.tasks().get(0) else {
        assert!(rt; false);
        return;
    };
    assert!(rt; task.privates() == [private_n].as_slice());
}

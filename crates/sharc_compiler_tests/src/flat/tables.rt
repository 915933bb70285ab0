//! The tables beside the code, worked out by hand.

use crate::flat::sources::flat;
use sharc_code::Parameter;
use sharc_flat::Flat;
use std::process::Abort;
use std::test::Fail;

const SOURCE: &str = "\
struct s { int n; mutex m; struct s dynamic * next; };
struct t { int dynamic * a; int dynamic * b; };
int g = -1; char a[3]; struct s x; int dynamic * p; long c = 'A';
void f(int a) { }
int main(void) { return 0; }
void h(struct s dynamic * y) { }
";

fn assert_globals(rt: &impl Abort, flat: &Flat) {
    let wanted = [(1, 1), (2, 3), (4, 3), (6, 1), (7, 1)];
    assert!(rt; flat.globals.len() == 5);
    for (at, (granule, cells)) in wanted.into_iter().enumerate() {
        assert!(rt;
            flat.globals[at].granule == granule && flat.globals[at].cells == cells,
            "{at}"
        );
    }
    assert_eq!(rt; flat.granules, 7);
    let words = [u64::MAX, 0, 0, 0, 0, 0, 0, 0, 0, 0, 0, 0, 65, 0];
    assert!(rt; flat.initial.as_slice() == words.as_slice());
}

fn assert_layouts(rt: &impl Abort, flat: &Flat) {
    let wanted = [(1, 0, 0), (1, 0, 1), (3, 1, 2), (2, 2, 4), (1, 4, 4)];
    assert!(rt; flat.layouts.len() == 5);
    for (at, (cells, from, until)) in wanted.into_iter().enumerate() {
        let row = flat.layouts[at];
        assert!(rt;
            row.cells == cells && row.from == from && row.until == until,
            "{at}"
        );
    }
    assert!(rt; flat.pointers.as_slice() == [0, 2, 0, 1].as_slice());
}

fn kind(parameter: Parameter) -> u32 {
    match parameter {
        Parameter::None => 0,
        Parameter::Int => 1,
        Parameter::Reference => 2,
    }
}

fn assert_functions(rt: &impl Abort, flat: &Flat) {
    let wanted = [(0, 1, 0, 1), (3, 1, 0, 0), (12, 1, 1, 2)];
    assert!(rt; flat.functions.len() == 3);
    for (at, (entry, ints, refs, parameter)) in wanted.into_iter().enumerate() {
        let row = flat.functions[at];
        assert!(rt;
            row.entry == entry
                && row.ints == ints
                && row.refs == refs
                && kind(row.parameter) == parameter,
            "{at}"
        );
    }
    assert_eq!(rt; flat.main, 1);
}

#[test]
fn globals_layouts_and_functions(rt: HostRuntime) -> Result<(), Fail> {
    let flat = flat(&rt, SOURCE)?;
    assert_globals(&rt, &flat);
    assert_layouts(&rt, &flat);
    assert_functions(&rt, &flat);
    assert!(rt; flat.files.len() == 1);
    Ok(())
}

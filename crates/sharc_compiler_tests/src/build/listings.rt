//! The code of small sources, worked out by hand from the definitions of flat code, of its checks and counts, and of
//! the listing.

use sharc_build::build;
use sharc_code::listing;
use std::process::Abort;
use std::test::Fail;

/// Cases, each a source on one line and the listing of its code.
const LISTINGS: &str = "\
int main(void) { print(6 * 7); return 0; }
start 0
exit
constant 0 6
constant 1 7
compute_int * 0 0 1 8
print 0 9
constant 0 0
chk_width int 0 13
move 0 0
return 15
constant 0 0
return 17
==
int dynamic g; int main(void) { g = 1; g = g + 1; print(g); return 0; }
start 0
exit
constant 0 1
chk_width int 0 5
chk_write global 0 2 6
store 0 global 0 2 6
load 0 global 0 2 11
constant 1 1
compute_int + 0 0 1 14
chk_width int 0 15
store 0 global 0 2 16
load 0 global 0 2 20
print 0 21
constant 0 0
chk_width int 0 25
move 0 0
return 27
constant 0 0
return 29
==
int dynamic g; int main(void) { g = 1; while (g < 3) g = g + 1; return 0; }
start 0
exit
constant 0 1
chk_width int 0 5
chk_write global 0 2 6
store 0 global 0 2 6
jump 9
jump 22
jump 21
chk_read global 0 2 13
load 0 global 0 2 13
constant 1 3
compute_int < 0 0 1 16
jump_if_zero 0 22
chk_read global 0 2 22
load 0 global 0 2 22
constant 1 1
compute_int + 0 0 1 25
chk_width int 0 26
chk_write global 0 2 27
store 0 global 0 2 27
jump 9
constant 0 0
chk_width int 0 32
move 0 0
return 34
constant 0 0
return 36
==
struct s { int n; }; int main(void) { struct s private * p = malloc(sizeof(struct s)); \
struct s dynamic * d = SCAST(struct s dynamic *, p); d->n = d->n + 1; return 0; }
start 0
exit
null 0
constant 0 1
chk_positive 0 5
new 1 0 1 6
lower 0
move_reference 0 1
null 1
take_local 2 0 12
jump_if_null 2 14
test_sole 2 14
clear 2 1
give 2 14
lower 1
move_reference 1 2
raise 2 1
chk_null 2 20
raise 3 1
chk_null 3 25
chk_read object 3 0 26
load 0 object 3 0 26
lower 3
constant 1 1
compute_int + 0 0 1 30
chk_width int 0 31
chk_write object 2 0 32
store 0 object 2 0 32
lower 2
constant 0 0
chk_width int 0 37
lower 0
lower 1
move 0 0
return 41
lower 0
lower 1
constant 0 0
return 45
==
struct t { int f; }; struct s { struct t dynamic * q; }; int main(void) { struct s dynamic * x = malloc(sizeof(struct s)); \
x->q = malloc(sizeof(struct t)); x->q->f = 1; return 0; }
start 0
exit
null 0
constant 0 1
chk_positive 0 5
new 1 0 1 6
lower 0
move_reference 0 1
raise 1 0
chk_null 1 12
constant 0 1
chk_positive 0 15
new 2 0 1 16
chk_write object 1 0 17
exchange 2 object 1 0 17
lower 2
lower 1
raise 1 0
chk_null 1 24
chk_read object 1 0 25
load_ref object 1 0 25
raise_loaded 2
lower 1
move_reference 1 2
chk_null 1 27
constant 0 1
chk_width int 0 30
chk_write object 1 0 31
store 0 object 1 0 31
lower 1
constant 0 0
chk_width int 0 36
lower 0
move 0 0
return 39
lower 0
constant 0 0
return 42
==
mutex m; int locked(m) a[2]; int main(void) { lock(&m); a[1] = 3; unlock(&m); return 0; }
start 0
exit
chk_not_held global 0 2 4
chk_room 5
lock global 0 2 6
constant 0 1
global_bounds 0 2 1 4 12
constant 1 3
chk_width int 1 15
chk_lock global 0 2 16
store 1 global_at 1 0 16
chk_held global 0 2 20
unlock 0 global 0 2 21
constant 0 0
chk_width int 0 25
move 0 0
return 27
constant 0 0
return 29
";

/// The listing of the code of a source.
fn listed(rt: &(impl Abort + AllocGlobal), source: &str) -> Result<String, Fail> {
    assert!(rt; source.len() <= 1_048_576);
    match build(rt.alloc(), source.as_bytes()) {
        Ok(built) => {
            let text = listing(rt.alloc(), &built.code);
            drop(built);
            Ok(String::from_utf8(text?)?)
        }
        Err(_) => panic!(rt; "not built: {source}"),
    }
}

/// Code without checks that repeat one, a check in each turn of a loop, a cast, a base that is counted while what is
/// assigned is made, and a locked element of an array.
#[test]
fn code_of_small_sources(rt: HostRuntime) -> Result<(), Fail> {
    for case in LISTINGS.split("==\n") {
        match case.split_once("\n") {
            None => panic!(rt; "no case: {case}"),
            Some((source, wanted)) => {
                let found = listed(&rt, source)?;
                assert_eq!(rt; found.as_str(), wanted, "{source}");
            }
        }
    }
    Ok(())
}

//! What threads of sources ask for. What is wanted was worked out by hand.

use crate::ask::tables::{assert_lines, assert_table, assert_values};
use std::test::Fail;

/// Each operator, at the edges of its type.
const VALUES: &str = "\
1 + 2 = 3
2147483647 + 0 = 2147483647
2147483647 + 1 = X4
2147483647l + 1 = 2147483648
-2147483647 - 1 = -2147483648
-2147483647 - 2 = X4
9223372036854775807 + 1 = X4
-9223372036854775807 - 1 = -9223372036854775808
-9223372036854775807 - 2 = X4
46340 * 46340 = 2147395600
46341 * 46341 = X4
46341l * 46341 = 2147488281
4611686018427387904 * 2 = X4
-4611686018427387904 * 2 = -9223372036854775808
7 / 2 = 3
-7 / 2 = -3
7 / -2 = -3
-7 % 2 = -1
7 % -2 = 1
1 / 0 = X3
1 % 0 = X3
(-2147483647 - 1) / -1 = X4
(-2147483647 - 1) % -1 = X4
(-2147483647l - 1) / -1 = 2147483648
(-9223372036854775807 - 1) / -1 = X4
(-9223372036854775807 - 1) % -1 = X4
1 << 30 = 1073741824
1 << 31 = X4
-1 << 31 = -2147483648
-1 << 32 = X4
0 << 31 = 0
0 << 32 = X4
1 << -1 = X4
1 >> -1 = X4
1l << -1 = X4
1073741824 << 1 = X4
-1073741824 << 1 = -2147483648
-1073741825 << 1 = X4
4611686018427387904 << 1 = X4
-4611686018427387904 << 1 = -9223372036854775808
1l << 62 = 4611686018427387904
1l << 63 = X4
-1l << 63 = -9223372036854775808
1l << 64 = X4
3 << 40l = X4
-5 >> 1 = -3
5 >> 1 = 2
-1 >> 31 = -1
1 >> 32 = X4
1l >> 63 = 0
1l >> 64 = X4
-1l >> 63 = -1
9223372036854775807 >> 62 = 1
~0 = -1
~5 = -6
~2147483647 = -2147483648
~9223372036854775807 = -9223372036854775808
!0 = 1
!7 = 0
-(-2147483647 - 1) = X4
-(-2147483647l - 1) = 2147483648
-(-9223372036854775807 - 1) = X4
-(-5) = 5
6 & 3 = 2
-1 & 255 = 255
6 | 3 = 7
6 ^ 3 = 5
-1 ^ 5 = -6
4294967296 | 0 = 4294967296
-1 & 4294967296 = 4294967296
4294967296 ^ -1 = -4294967297
-2147483647 - 1 < 2147483647 = 1
4294967296 > 1 = 1
-9223372036854775807 - 1 <= 9223372036854775807 = 1
1 < 2 = 1
2 < 2 = 0
2 <= 2 = 1
3 <= 2 = 0
3 > 2 = 1
2 > 2 = 0
2 >= 2 = 1
2 >= 3 = 0
2 == 2 = 1
2 == 3 = 0
2 != 2 = 0
2 != 3 = 1
1 && 2 = 1
0 && 1 / 0 = 0
1 && 0 = 0
1 || 1 / 0 = 1
0 || 3 = 1
0 || 0 = 0
'a' + 1 = 98
";

/// What a thread does in its order, with how far it comes with fewer answers and less fuel.
const ORDER: &str = "\
int main(void) { print(1 + 2); return 0; }
--
main 0 100 0 0 0 = print 3; return; gone; ended
main 0 100 0 0 0 5 = print 3; return; gone; ended
main 0 100 = wants print 3, holds
main 0 100 7 = print 3; wants return, holds
main 0 100 7 7 = print 3; return; wants gone, holds
main 0 0 7 = fuel
main 0 5 7 = fuel
main 0 6 7 = print 3; fuel
main 0 7 7 = print 3; fuel
main 0 8 7 7 = print 3; return; wants gone, holds
none 0 100 7 = ended
==
int dynamic g; int racy h; int main(void) { print(g - h); return 0; }
--
main 0 100 5 3 0 0 0 = read g0.0 dynamic is 5; read g1.0 racy is 3; print 2; return; gone; ended
==
int racy a[3]; int racy i; int main(void) { a[i] = i + 1; return 0; }
--
main 0 100 2 4 0 0 0 = read g1.0 racy is 2; read g1.0 racy is 4; write g0.2 racy 5; return; gone; ended
main 0 100 3 = read g1.0 racy is 3; X2 at line 1
main 0 100 -1 = read g1.0 racy is -1; X2 at line 1
main 0 100 1 2147483647 = read g1.0 racy is 1; read g1.0 racy is 2147483647; X4 at line 1
==
int racy g; int racy h; int f(int a, int b) { print(a); return a * b; }
int main(void) { print(f(g, h) + g); return 0; }
--
main 0 100 5 3 0 2 0 = read g0.0 racy is 5; read g1.0 racy is 3; print 5; read g0.0 racy is 2; print 17; wants return, holds
==
int racy g; int main(void) { if (g && g) print(1); else print(2); if (g || g) print(3); return 0; }
--
main 0 100 1 1 0 1 = read g0.0 racy is 1; read g0.0 racy is 1; print 1; read g0.0 racy is 1; wants print 3, holds
main 0 100 0 0 0 0 = read g0.0 racy is 0; print 2; read g0.0 racy is 0; read g0.0 racy is 0; wants return, holds
==
struct s { int racy n; int racy k; }; struct s racy a[2]; int racy i;
int main(void) { a[i].k = 3; print(a[i].n); return 0; }
--
main 0 100 1 0 1 8 = read g1.0 racy is 1; write g0.3 racy 3; read g1.0 racy is 1; read g0.2 racy is 8; wants print 8, holds
==
int main(void) { char c = 127; int i = c; long l = 2147483648;
c = i;
i = l;
return 0; }
--
main 0 100 = X4 at line 3
==
char f(char c) { return c + 1; }
void g(char c) { print(c); }
int main(void) { print(f(126));
g(
128);
return 0; }
--
main 0 100 0 = print 127; X4 at line 5
f 127 100 = X4 at line 1
==
char f(char c) { return c - 1; } int main(void) { return 0; }
--
f -127 100 = wants return, holds
f -128 100 = X4 at line 1
==
int racy h; void f(char c, int n) { } void g(int n, char c) { } int main(void) { int i = 300; if (h) f(i, h); else
g(h, i); return 0; }
--
main 0 100 1 = read g0.0 racy is 1; X4 at line 1
main 0 100 0 5 = read g0.0 racy is 0; read g0.0 racy is 5; X4 at line 2
==
int racy i; void f(int dynamic * p) { print(p[i]); } int main(void) { return 0; }
--
f 0 100 = X1 at line 1
f 1:3 100 3 = read g0.0 racy is 3; X2 at line 1
f 1:3 100 2 = read g0.0 racy is 2; wants read o1.2 dynamic, holds 1:3 1:3
";

/// Jumps in loops, blocks and what they hide.
const FLOW: &str = "\
int main(void) { int i = 0; for (i = 0; i < 5; i = i + 1) { if (i == 1) continue; if (i == 3) break; print(i); } print(i); return 0; }
--
main 0 1000 0 0 0 0 0 = print 0; print 2; print 3; return; gone; ended
==
int main(void) { int i = 0; while (i < 4) { i = i + 1; if (i == 2) continue; while (1) { if (i == 3) break; print(i); break; } } print(9); return 0; }
--
main 0 1000 0 0 0 0 0 = print 1; print 4; print 9; return; gone; ended
==
int main(void) { while (1) { for (;;) { return 0; } } }
--
main 0 1000 0 0 = return; gone; ended
==
int main(void) { for (;;) print(1); return 0; }
--
main 0 12 0 0 0 0 0 0 0 0 = print 1; print 1; print 1; fuel
==
int main(void) { int i; for (i = 0; i < 1; i = i + 1) ; print(i); return 0; }
--
main 0 21 0 0 0 = print 1; return; gone; ended
main 0 20 0 0 0 = print 1; fuel
==
int main(void) { int x = 1; { int x = 2; print(x); { int x = x; print(x); } } print(x); for (int x = 7; x < 8; x = x + 1) print(x); print(x); return 0; }
--
main 0 1000 0 0 0 0 0 0 0 = print 2; print 0; print 1; print 7; print 1; return; gone; ended
==
int main(void) { int i = 0; while (i < 3) { int x; print(x); x = 7; i = i + 1; if (i == 1) continue; if (i == 2) break; } return 0; }
--
main 0 1000 0 0 0 0 = print 0; print 0; return; gone; ended
==
int f(int n) { if (n == 0) return 0; return f(n - 1) + 1; }
int main(void) { print(f(254)); print(f(255)); return 0; }
--
main 0 100000 0 = print 254; X10 at line 1
f 255 100000 0 0 = return; gone; ended
f 256 100000 = X10 at line 1
==
int f(int n) { if (n) return 5; } int main(void) { print(f(0) + f(1)); ; return 0; }
--
main 0 100 0 0 0 = print 5; return; gone; ended
";

/// What is held where an event is wanted; objects, casts and frees.
const HELD: &str = "\
struct s { int n; struct s dynamic * next; };
int main(void) { struct s private * x = malloc(sizeof(struct s)); x->n = 4; free(x); print(x == NULL); return 0; }
--
main 0 100 = wants new 2x1 private, holds 0
main 0 100 1:1 = new 2x1 private is 1:1; wants write o1.0 private 4, holds 1:1 1:1
main 0 100 1:1 0 = new 2x1 private is 1:1; write o1.0 private 4; wants free of local, holds 1:1
main 0 100 1:1 0 0 = new 2x1 private is 1:1; write o1.0 private 4; free of local is 1:1; wants freed 1:1, holds 0 1:1
main 0 100 1:1 0 0 0 = new 2x1 private is 1:1; write o1.0 private 4; free of local is 1:1; freed 1:1; wants print 1, holds 0
==
void w(int dynamic * p) { *p = 1; }
int main(void) { int private * x = malloc(sizeof(int)); int dynamic * y = SCAST(int dynamic *, x); join(spawn(w, y)); return 0; }
--
main 0 100 1:1 = new 1x1 private is 1:1; wants cast of local, holds 1:1 0
main 0 100 1:1 9 = new 1x1 private is 1:1; cast of local is 1:1; wants give 1:1 dynamic, holds 0 0 1:1
main 0 100 1:1 9 0 = new 1x1 private is 1:1; cast of local is 1:1; give 1:1 dynamic; wants spawn f0 1:1, holds 0 1:1 1:1
main 0 100 1:1 9 0 1 = new 1x1 private is 1:1; cast of local is 1:1; give 1:1 dynamic; spawn f0 1:1 is 1; wants join 1, holds 0 1:1
w 1:1 100 = wants write o1.0 dynamic 1, holds 1:1 1:1
w 0 100 = X1 at line 1
w 1:1 100 0 0 0 = write o1.0 dynamic 1; return; gone; ended
==
int dynamic * dynamic g; int f(int dynamic * a, int dynamic * b) { { int dynamic * c = a; print(1); } print(2); return 3; }
int main(void) { int dynamic * x = malloc(sizeof(int)); f(x, g); return 0; }
--
main 0 100 1:1 = new 1x1 dynamic is 1:1; wants read g0.0 dynamic, holds 1:1 1:1
main 0 100 1:1 2:1 = new 1x1 dynamic is 1:1; read g0.0 dynamic is 2:1; wants print 1, holds 1:1 1:1 2:1 1:1
main 0 100 1:1 2:1 0 = new 1x1 dynamic is 1:1; read g0.0 dynamic is 2:1; print 1; wants print 2, holds 1:1 1:1 2:1
main 0 100 1:1 2:1 0 0 = new 1x1 dynamic is 1:1; read g0.0 dynamic is 2:1; print 1; print 2; wants return, holds
==
int main(void) { int private * x = malloc(3 * sizeof(int)); x[2] = 5; print(x[1 + 1]); free(x); free(x);
print(x[3]); return 0; }
--
main 0 100 7:3 0 5 0 0 0 = new 1x3 private is 7:3; write o7.2 private 5; read o7.2 private is 5; print 5; free of local is 7:3; freed 7:3; X1 at line 2
==
int main(void) { int private * x = malloc(3 * sizeof(int));
print(x[3]); return 0; }
--
main 0 100 7:3 = new 1x3 private is 7:3; X2 at line 2
==
int main(void) { int n = 0;
int private * x = malloc(n * sizeof(int)); return 0; }
--
main 0 100 = X12 at line 2
==
int dynamic * dynamic g; int main(void) { int private * y = SCAST(int private *, g); free(g); return 0; }
--
main 0 100 4:1 0 0 0 = cast of g0.0 dynamic is 4:1; give 4:1 private; free of g0.0 dynamic is 0; return; wants gone, holds
main 0 100 0 5:1 = cast of g0.0 dynamic is 0; free of g0.0 dynamic is 5:1; wants freed 5:1, holds 0 5:1
";

/// Mutexes and condition variables.
const LOCKS: &str = "\
mutex m; int locked(m) g; int main(void) { lock(&m); g = 1; unlock(&m); return 0; }
--
main 0 100 0 0 0 0 0 = lock g0.0; write g1.0 locked by g0.0 1; unlock g0.0; return; gone; ended
==
mutex m; int main(void) {
unlock(&m); return 0; }
--
main 0 100 = X5 at line 2
==
mutex m; int main(void) { lock(&m);
lock(&m); return 0; }
--
main 0 100 0 = lock g0.0; X6 at line 2
==
mutex m; int main(void) { lock(&m);
return 0;
}
--
main 0 100 0 = lock g0.0; X11 at line 2
==
mutex a[17]; int main(void) { int i = 0; for (i = 0; i < 17; i = i + 1)
lock(&a[i]); return 0; }
--
main 0 1000 0 0 0 0 0 0 0 0 0 0 0 0 0 0 0 0 = ..lock g0.14; lock g0.15; X13 at line 2
==
struct s { mutex m; int locked(m) n; };
int main(void) { struct s dynamic * p = malloc(sizeof(struct s)); lock(&p->m); p->n = 1; unlock(&p->m); return 0; }
--
main 0 100 3:1 = new 2x1 dynamic is 3:1; wants lock o3.0, holds 3:1 3:1
main 0 100 3:1 0 = new 2x1 dynamic is 3:1; lock o3.0; wants write o3.1 locked by o3.0 1, holds 3:1 3:1
main 0 100 3:1 0 0 = new 2x1 dynamic is 3:1; lock o3.0; write o3.1 locked by o3.0 1; wants unlock o3.0, holds 3:1 3:1
main 0 100 3:1 0 0 0 0 0 = new 2x1 dynamic is 3:1; lock o3.0; write o3.1 locked by o3.0 1; unlock o3.0; return; gone; ended
==
struct s { mutex racy * readonly m; int locked(m) n; };
int main(void) { struct s dynamic * p = malloc(sizeof(struct s));
print(p->n); return 0; }
--
main 0 100 3:1 2:1 7 = new 2x1 dynamic is 3:1; read o3.0 readonly is 2:1; read o3.1 locked by o2.0 is 7; wants print 7, holds 3:1
main 0 100 3:1 0 = new 2x1 dynamic is 3:1; read o3.0 readonly is 0; X1 at line 3
==
struct s { mutex racy * readonly m; char locked(m) c; }; void f(struct s dynamic * p) { int i = 300; p->c = i; } int main(void) { return 0; }
--
f 3:1 100 = X4 at line 1
==
struct s { mutex m; int n; }; void f(struct s dynamic * p) { int locked(p->m) * q = malloc(sizeof(int));
*q = 1; } int main(void) { return 0; }
--
f 3:1 100 = wants new 1x1 locked by o3.0, holds 3:1 0
f 3:1 100 5:1 = new 1x1 locked by o3.0 is 5:1; wants write o5.0 locked by o3.0 1, holds 3:1 5:1 5:1
f 0 100 5:1 = new 1x1 locked by none is 5:1; X1 at line 2
==
int main(void) { struct cond dynamic * c = malloc(sizeof(struct cond)); mutex racy * m = malloc(sizeof(mutex));
lock(&*m); wait(c, m); signal(c); broadcast(c); unlock(&*m);
wait(c, m); return 0; }
--
main 0 100 1:1 2:1 0 = new 1x1 dynamic is 1:1; new 1x1 racy is 2:1; lock o2.0; wants enter o1.0, holds 1:1 2:1 1:1 2:1
main 0 100 1:1 2:1 0 0 0 = ..enter o1.0; unlock o2.0; wants woken o1.0, holds 1:1 2:1 1:1 2:1 2:1
main 0 100 1:1 2:1 0 0 0 0 = ..woken o1.0; wants lock o2.0, holds 1:1 2:1 1:1 2:1 2:1
main 0 100 1:1 2:1 0 0 0 0 0 4 0 0 = ..woken o1.0; lock o2.0; signal o1.0 is 4; broadcast o1.0; unlock o2.0; X5 at line 3
==
int main(void) { struct cond dynamic * c = malloc(sizeof(struct cond));
wait(NULL, NULL); return 0; }
--
main 0 100 1:1 = new 1x1 dynamic is 1:1; X1 at line 2
";

/// What is given up after the last event: references by the number of their object, what a cell held by the cell.
const GIVEN: &str = "\
struct s { int n; struct s dynamic * next; };
int main(void) { struct s private * x = malloc(sizeof(struct s)); x->n = 4; free(x); print(x == NULL); return 0; }
--
main 0 100 = gives up nothing
main 0 100 1:1 = gives up 0
main 0 100 1:1 0 = gives up 1
main 0 100 1:1 0 0 = gives up all of 1
main 0 100 1:1 0 0 0 = gives up 0, 0
main 0 100 1:1 0 0 0 0 = gives up 0
==
int dynamic * dynamic g; void f(int dynamic * a) { g = a; print(1); } int main(void) { return 0; }
--
f 1:1 100 = gives up nothing
f 1:1 100 0 = gives up g0.0
f 1:1 100 0 0 = gives up 1
==
struct s { mutex m; int locked(m) n; }; void f(struct s dynamic * p) { lock(&p->m); unlock(&p->m); print(2); } int main(void) { return 0; }
--
f 3:1 100 0 = gives up nothing
f 3:1 100 0 0 = gives up 3, 3
==
int dynamic * dynamic g; int dynamic * h(int dynamic * a, int dynamic * b) { return b; }
void f(int dynamic * p) { h(p, g); print(1); } int main(void) { return 0; }
--
f 1:1 100 2:1 = gives up 1, 2, 2
==
void f(int dynamic * p) { int dynamic * q; if (p) print(*q); } int main(void) { return 0; }
--
f 1:1 100 = gives up 1
f 1:1 2 = gives up nothing
f 1:1 4 = gives up 1
==
void w(int dynamic * p) { } int main(void) { int private * x = malloc(sizeof(int)); int dynamic * y = SCAST(int dynamic *, x); join(spawn(w, y)); return 0; }
--
main 0 100 1:1 = gives up 0
main 0 100 1:1 9 = gives up nothing
main 0 100 1:1 9 0 = gives up 0
main 0 100 1:1 9 0 1 = gives up nothing
";

#[test]
fn values(rt: HostRuntime) -> Result<(), Fail> {
    assert_values(&rt, VALUES)
}

#[test]
fn order(rt: HostRuntime) -> Result<(), Fail> {
    assert_table(&rt, ORDER)
}

#[test]
fn flow(rt: HostRuntime) -> Result<(), Fail> {
    assert_table(&rt, FLOW)
}

#[test]
fn a_long_loop(rt: HostRuntime) -> Result<(), Fail> {
    assert_lines(
        &rt,
        "int main(void) { int i = 0; while (i < 100000) i = i + 1; print(i); return 0; }",
        "main 0 10000000 = wants print 100000, holds",
    )
}

#[test]
fn a_long_block(rt: HostRuntime) -> Result<(), Fail> {
    let mut source = String::from_str(rt.alloc(), "int main(void) { int x = 0; ")?;
    for _ in 0..20_000 {
        source.push_str("x = x + 1; ")?;
    }
    source.push_str("print(x); return 0; }")?;
    assert_lines(
        &rt,
        source.as_str(),
        "main 0 1000000 = wants print 20000, holds",
    )
}

#[test]
fn held(rt: HostRuntime) -> Result<(), Fail> {
    assert_table(&rt, HELD)
}

#[test]
fn given_up(rt: HostRuntime) -> Result<(), Fail> {
    assert_table(&rt, GIVEN)
}

#[test]
fn locks(rt: HostRuntime) -> Result<(), Fail> {
    assert_table(&rt, LOCKS)
}

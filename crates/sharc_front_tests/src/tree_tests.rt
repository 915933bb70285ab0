//! Trees that the parser made: their copies, and the calls that look into them and print them.

use crate::nodes::{Node, at, expressions_of, nodes_of};
use crate::parts::returned;
use crate::sources::{last_function, program, text_of};
use sharc_lex::lex;
use sharc_tree::ctype::{Base, CType, Levels, Mode, Path};
use sharc_tree::event::{Act, SourceEvent, SourceEvents};
use sharc_tree::name::{Name, Names};
use sharc_tree::print::{print_span, print_type};
use sharc_tree::token::{Site, Span};
use sharc_tree::tree::{Items, Program, Stmt};
use std::alloc::AllocError;
use std::process::Abort;
use std::test::Fail;

/// Adds a line for a span: the file of its first token, the lines of its first and its last, and its text.
fn add_span(
    rt: &(impl Abort + AllocGlobal),
    program: &Program,
    span: Span,
    texts: &mut Vec<u8>,
) -> Result<(), Fail> {
    let place = format!(in rt.alloc();
        "{}:{}-{}: ",
        span.first.file, span.first.line, span.last.line
    )?;
    texts.extend_from_slice(place.as_bytes())?;
    texts.extend_from_slice(&text_of(rt, program, span)?)?;
    texts.push(b'\n')?;
    Ok(())
}

/// Adds a line for a text in a tree.
fn add_text(text: &[u8], texts: &mut Vec<u8>) -> Result<(), AllocError> {
    texts.extend_from_slice(text)?;
    texts.push(b'\n')?;
    Ok(())
}

/// Adds the lines of a node: those of its tokens, and of the name or type that it has.
fn add_node(
    rt: &(impl Abort + AllocGlobal),
    program: &Program,
    node: Node<'_>,
    texts: &mut Vec<u8>,
) -> Result<(), Fail> {
    match node {
        Node::Tokens(span) => add_span(rt, program, span, texts)?,
        Node::Expr(expr) => add_span(rt, program, expr.span(), texts)?,
        Node::Type(written) => {
            add_text(&print_type(rt.alloc(), &written.ctype)?, texts)?;
            add_span(rt, program, written.span, texts)?;
            add_span(rt, program, at(written.base), texts)?;
        }
        Node::Name(name) => {
            add_text(name.text.as_slice(), texts)?;
            add_span(rt, program, at(name.site), texts)?;
        }
    }
    Ok(())
}

/// The lines of all nodes of a program.
fn texts(rt: &(impl Abort + AllocGlobal), program: &Program) -> Result<Vec<u8>, Fail> {
    let mut texts = Vec::new(rt.alloc());
    for node in nodes_of(rt.alloc(), program)? {
        add_node(rt, program, node, &mut texts)?;
    }
    Ok(texts)
}

/// Each production of the grammar.
const EACH_PRODUCTION: &[u8] = b"# 7 \"a.c\"
struct s {
  mutex racy m;
  int locked(m) n;
  locked(m) char c;
  long d;
  struct s dynamic * private * next;
};
mutex racy g;
int dynamic a[0x10];
int racy k = -1;
int readonly h = 2;
char private b = 'x';
struct s * p = NULL;
# 3 \"b.h\" 1
void w(struct s locked(q->m) * q) { ; }
long f(int x, char y) {
  int z;
  int t = spawn(w, p);
  struct s private * r = malloc(sizeof(struct s));
  r = malloc(x * sizeof(struct s));
  { r->n = x; }
  a[x] = (*r).n;
  lock(&g);
  unlock(&r->m);
  free(r->next);
  print(f(x, y) + f(-x, !y) * ~z);
  join(t);
  r = SCAST(struct s dynamic * , p);
  x = x || y && z | x ^ y & z == x != y < z;
  x = x > y << z >= x >> y <= z + x - y * z / x % y;
  if (x) return 'a'; else { continue; }
  if (((x))) f(1, 2);
  while (x) break;
  for (;;) ;
  for (int i = 0; i < 3; i = i + 1) { int j; }
  for (x = 1; ; w(p)) ;
  return NULL;
}
int main(void) { return; }
";

/// Asserts that a copy has the files, the number of items and the number of tokens of its source.
fn assert_sizes(rt: &impl Abort, source: &Program, copied: &Program) {
    assert_eq!(rt; copied.items.len(), 10);
    assert_eq!(rt; copied.tokens.list.len(), source.tokens.list.len());
    assert_eq!(rt; copied.tokens.files.len(), 3);
    assert_eq!(rt; copied.files.len(), 3);
    assert_eq!(rt; copied.files.at(2).as_slice(), b"b.h".as_slice());
}

/// The texts of a copy.
fn texts_of_copy(rt: &(impl Abort + AllocGlobal), source: &Program) -> Result<Vec<u8>, Fail> {
    let copied = source.copy(rt.alloc())?;
    assert_sizes(rt, source, &copied);
    let found = texts(rt, &copied);
    drop(copied);
    found
}

/// The lines of its first item.
const FIRST_LINES: &[u8] =
    b"1:7-13: struct s{mutex racy m;int locked(m)n;locked(m)char c;long d;struct s dynamic*private*next;};
s
1:7-7: s
1:8-8: mutex racy m
mutex racy
1:8-8: mutex racy
1:8-8: mutex
m
1:8-8: m
1:9-9: int locked(m)n
int locked(m)
1:9-9: int locked(m)
1:9-9: int
n
1:9-9: n
1:10-10: locked(m)char c
char locked(m)
1:10-10: locked(m)char
1:10-10: char
c
1:10-10: c
1:11-11: long d
long
1:11-11: long
1:11-11: long
d
1:11-11: d
1:12-12: struct s dynamic*private*next
struct s dynamic * private *
1:12-12: struct s dynamic*private*
1:12-12: s
next
1:12-12: next
";

/// Those of its last.
const LAST_LINES: &[u8] = b"2:27-27: int main(void){return;}
2:27-27: {return;}
int
2:27-27: int
2:27-27: int
main
2:27-27: main
2:27-27: return;
";

/// Asserts that the texts of a program and of its copy are the same, and with which they begin and end.
fn assert_texts(rt: &(impl Abort + AllocGlobal), source: &Program) -> Result<(), Fail> {
    let found = texts_of_copy(rt, source)?;
    assert_eq!(rt; found.as_slice(), texts(rt, source)?.as_slice());
    assert!(rt; found.starts_with(FIRST_LINES));
    assert!(rt; found.ends_with(LAST_LINES));
    Ok(())
}

#[test]
fn copies_have_the_nodes_of_their_sources(rt: HostRuntime) -> Result<(), Fail> {
    let source = program(&rt, EACH_PRODUCTION)?;
    let asserted = assert_texts(&rt, &source);
    drop(source);
    asserted
}

/// Asserts the parts of a function with a block of two statements, which returns a call of `g` with three arguments.
fn assert_parts(rt: &(impl Abort + AllocGlobal), program: &Program) -> Result<(), Fail> {
    let Some((name, arguments)) = returned(rt, program).as_call() else {
        panic!(rt; "no call")
    };
    assert_eq!(rt; name.text.as_slice(), b"g".as_slice());
    assert_eq!(rt; arguments.len(), 3);
    let function = last_function(rt, program);
    let Some(block) = function.statements.first().and_then(Stmt::as_block) else {
        panic!(rt; "no block")
    };
    assert_eq!(rt; block.len(), 2);
    assert_eq!(rt; expressions_of(rt.alloc(), function)?.len(), 4);
    Ok(())
}

#[test]
fn calls_and_blocks_give_their_parts(rt: HostRuntime) -> Result<(), Fail> {
    let program = program(&rt, b"int f(void) { { ; ; } return g(1, 2, 3); }")?;
    let asserted = assert_parts(&rt, &program);
    drop(program);
    asserted
}

#[test]
fn lists_give_their_elements(rt: HostRuntime) -> Result<(), Fail> {
    let alloc = rt.alloc();
    let site = Site {
        file: 0,
        line: 1,
        token: 2,
    };
    let event = SourceEvent {
        thread: 3,
        site,
        answer: 0,
        act: Act::Gone,
    };
    let mut list = Vec::new(alloc);
    list.push(event)?;
    let events = SourceEvents::of(list);
    assert!(rt; !events.is_empty());
    assert_eq!(rt; events.len(), 1);
    assert!(rt; *events.at(0) == event);
    assert_eq!(rt; events.into_vec().len(), 1);
    Ok(())
}

#[test]
fn names_give_their_bytes(rt: HostRuntime) -> Result<(), Fail> {
    let name = Name::from_slice(rt.alloc(), b"mutex")?;
    assert!(rt; !name.is_empty());
    assert_eq!(rt; name.len(), 5);
    assert_eq!(rt; *name.at(4), b'x');
    let copied = name.copy(rt.alloc())?;
    assert!(rt; copied.equals(&name));
    let other = Name::of(Vec::from_slice(rt.alloc(), b"mute")?);
    assert!(rt; !other.equals(&name));
    assert_eq!(rt; copied.into_vec().as_slice(), b"mutex".as_slice());
    Ok(())
}

#[test]
fn types_print_from_the_base_up(rt: HostRuntime) -> Result<(), Fail> {
    let alloc = rt.alloc();
    let variable = Name::from_slice(alloc, b"s")?;
    let path = Path::Through(variable, 7, Name::from_slice(alloc, b"m")?);
    let mut levels = Vec::new(alloc);
    levels.push(Some(Mode::Private))?;
    levels.push(None)?;
    levels.push(Some(Mode::Locked(path)))?;
    let t = CType {
        base: Base::Struct(Name::from_slice(alloc, b"buf")?),
        levels: Levels::of(levels),
    };
    assert_eq!(rt;
        print_type(alloc, &t)?.as_slice(),
        b"struct buf locked(s->m) * * private".as_slice()
    );
    Ok(())
}

/// Asserts how 24 tokens are printed, all and the fifth alone.
fn assert_blanks(rt: &(impl Abort + AllocGlobal), p: &Program) -> Result<(), Fail> {
    let len = p.tokens.list.len();
    assert_eq!(rt; len, 24);
    assert_eq!(rt;
        print_span(rt.alloc(), p, 0, 23)?.as_slice(),
        b"a[i]->f locked(m)int x 10 f(a,1)'x'y _z-2".as_slice()
    );
    assert_eq!(rt;
        print_span(rt.alloc(), p, 4, 4)?.as_slice(),
        b"->".as_slice()
    );
    Ok(())
}

#[test]
fn blanks_stand_between_words_and_numbers_alone(rt: HostRuntime) -> Result<(), Fail> {
    let alloc = rt.alloc();
    let source = b"a [i]-> f locked ( m ) int x 10 f(a , 1) 'x' y _z - 2";
    let tokens = lex(alloc, source.as_slice())?;
    let p = Program {
        files: Names::of(Vec::new(alloc)),
        items: Items::of(Vec::new(alloc)),
        tokens,
    };
    let asserted = assert_blanks(&rt, &p);
    drop(p);
    asserted
}

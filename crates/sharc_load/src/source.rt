//! A program of eight threads that run through `n` functions.

ghost use Rattle.std.specs.{Prelude.{◌≡◌, ◌≤◌, ◌++◌, IfOk, OnOk, map, string_bytes}, List.range_with_len};
ghost use Rattle.sharc_load.specs.Source.{source_of, text_of, step_line, call_line, spawn_line, join_line};

use std::alloc::{AllocError, Allocator};

/// The program with this number of functions, `step0`, `step1`, .. after its globals: each of eight threads runs its
/// number through all of them under no lock, and adds what comes out to a total under one.
///
/// An `Err` says that memory was not found.
pub fn make<A: Allocator>(alloc: A, functions: u32) -> Result<Vec<u8, A>, AllocError>
    requires least { 1 ≤ functions }
    requires most { functions ≤ 10000 }
    ensures { IfOk result (λ text. text.items ≡ source_of functions) }
{
    let mut text = String::new(alloc);
    text.push_str("mutex m;\nint locked(m) total;\n")?;
    write_steps(&mut text, functions)?;
    text.push_str("void work(int v) {\n")?;
    write_calls(&mut text, functions)?;
    text.push_str("lock(&m);\ntotal = total + v;\nunlock(&m);\n}\nint main(void) {\n")?;
    write_spawns(&mut text)?;
    write_joins(&mut text)?;
    text.push_str("lock(&m);\nprint(total);\nunlock(&m);\nreturn 0;\n}\n")?;
    Ok(text.into_bytes())
}

// The definitions of the functions.
fn write_steps<A: Allocator>(text: &mut String<A>, n: u32) -> Result<(), AllocError>
    ensures { OnOk result (string_bytes text.new
        ≡ string_bytes text.old ++ text_of (map step_line (range_with_len 0 n))) }
{
    for i in 0..n {
        writeln!(text, "int step{i}(int v) {{ return v + {i}; }}")?;
    }
    Ok(())
}

// The worker's calls of the functions.
fn write_calls<A: Allocator>(text: &mut String<A>, n: u32) -> Result<(), AllocError>
    ensures { OnOk result (string_bytes text.new
        ≡ string_bytes text.old ++ text_of (map call_line (range_with_len 0 n))) }
{
    for i in 0..n {
        writeln!(text, "v = step{i}(v);")?;
    }
    Ok(())
}

// The spawns of the threads, numbered from 1.
fn write_spawns<A: Allocator>(text: &mut String<A>) -> Result<(), AllocError>
    ensures { OnOk result (string_bytes text.new
        ≡ string_bytes text.old ++ text_of (map spawn_line (range_with_len 1 8))) }
{
    for k in 1..9u32 {
        writeln!(text, "int t{k} = spawn(work, {k});")?;
    }
    Ok(())
}

// The joins of the threads.
fn write_joins<A: Allocator>(text: &mut String<A>) -> Result<(), AllocError>
    ensures { OnOk result (string_bytes text.new
        ≡ string_bytes text.old ++ text_of (map join_line (range_with_len 1 8))) }
{
    for k in 1..9u32 {
        writeln!(text, "join(t{k});")?;
    }
    Ok(())
}

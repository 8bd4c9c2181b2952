//! Questions about a program's templates over a new arena.
ghost use Rattle.in_compile.specs.Templates.{AreTemplatesOf};

use crate::gathers::add_gather;
use crate::workers::add_workers;
use in_check::Checked;
use in_compile::{Templates, compile};
use in_harness_texts::{Sheet, fresh, word};
use std::sync::Wait;
use std::thread::Threads;

/// Adds the answers to a row of puts and takes over 20 cells of each class.
fn add_in_few(sheet: &mut Sheet, program: &Checked, templates: &Templates, words: &[String])
    requires { AreTemplatesOf program.now.program templates.now }
{
    match fresh(sheet.alloc, 20) {
        Ok(mut arena) => {
            add_gather(sheet, program, templates, &mut arena, words);
            drop(arena);
        }
        Err(_) => sheet.fail(),
    }
}

/// Adds the answers of workers over 600 cells of each class.
fn add_in_many<R: Threads + Wait>(
    rt: &R,
    sheet: &mut Sheet,
    program: &Checked,
    templates: &Templates,
    words: &[String],
)
    requires { AreTemplatesOf program.now.program templates.now }
{
    match fresh(sheet.alloc, 600) {
        Ok(mut arena) => {
            add_workers(rt, sheet, program, templates, &mut arena, words);
            drop(arena);
        }
        Err(_) => sheet.fail(),
    }
}

/// Answers the words `gather` or `workers`.
pub fn add_over_arena<R: Threads + Wait>(
    rt: &R,
    sheet: &mut Sheet,
    program: &Checked,
    words: &[String],
) {
    match compile(sheet.alloc, program) {
        Ok(templates) => {
            if word(words, 1) == "gather" {
                add_in_few(sheet, program, &templates, words);
            } else {
                add_in_many(rt, sheet, program, &templates, words);
            }
            drop(templates);
        }
        Err(_) => sheet.fail(),
    }
}

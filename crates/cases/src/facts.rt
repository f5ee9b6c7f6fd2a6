//! Calls of `pv_types`.
//!
//! | Line | Answer |
//! |---|---|
//! | `facts STEP; ..` | what each step answers, over a world that tells nothing at first, for methods that start with the empty heap |
//!
//! A STEP is `set-is CLASS OBJECT` or `set-fits ARRAY VALUE`, which tells a fact; `is CLASS OBJECT` or `fits ARRAY VALUE`, which asks for one;
//! `call CLASS NAME DESC NUMBER ..`, which asks whether a call has a reply; `put PLACE NUMBER`, after which methods start with a heap that has the number
//! there; or `texts`, the literals whose objects a failed cast and a failed store throw.

use cases_words::answers::{Answer, List, NoAnswer, said, shown};
use cases_words::bench::{Bench, number, words};
use cases_words::values::{escaped, read_name, read_nums, read_place, read_sym};
use pv_types::{cast_text, fits, is, set_fits, set_is, store_text};
use pv_value::{Heap, World};
use std::alloc::Global;

// What facts are told and asked for: a world, and the heap with which methods start.
#[derive(Drop)]
struct Setting {
    world: World,
    start: Heap,
}

/// `facts STEP; ..`
pub fn facts(bench: &Bench, rest: &str) -> Answer {
    let alloc = bench.alloc();
    let mut setting = Setting {
        world: World::new(alloc),
        start: Heap::new(alloc),
    };
    let mut list = List::new(alloc);
    for step in rest.split(';') {
        let words = words(alloc, step)?;
        list.add(fact_step(alloc, &mut setting, &words)?.as_str())?;
    }
    list.into_text()
}

fn fact_step(alloc: Global, setting: &mut Setting, words: &[&str]) -> Answer {
    let Setting { world, start } = setting;
    match *words {
        ["set-is", class, object] => {
            set_is(
                alloc,
                world,
                start,
                &read_name(alloc, class)?,
                number(object)?,
            )?;
            said(alloc, "ok")
        }
        ["set-fits", array, value] => {
            set_fits(alloc, world, start, number(array)?, number(value)?)?;
            said(alloc, "ok")
        }
        ["put", place, n] => {
            start.put(read_place(alloc, place)?, number(n)?)?;
            said(alloc, "ok")
        }
        _ => asked(alloc, world, start, words),
    }
}

// What a world tells.
fn asked(alloc: Global, world: &World, start: &Heap, words: &[&str]) -> Answer {
    match *words {
        ["is", class, object] => {
            let holds = is(
                alloc,
                world,
                start,
                &read_name(alloc, class)?,
                number(object)?,
            )?;
            shown(alloc, holds)
        }
        ["fits", array, value] => {
            let holds = fits(alloc, world, start, number(array)?, number(value)?)?;
            shown(alloc, holds)
        }
        ["call", class, name, desc, ref args @ ..] => {
            let sym = read_sym(alloc, class, name, desc)?;
            let args = read_nums(alloc, args)?;
            shown(alloc, world.reply(&sym, start, args.as_slice()).is_some())
        }
        ["texts"] => texts(alloc),
        _ => Err(NoAnswer::Unreadable),
    }
}

// The literals of a failed cast and of a failed store.
fn texts(alloc: Global) -> Answer {
    let mut list = String::new(alloc);
    list.push_str(escaped(alloc, cast_text(alloc)?.bytes())?.as_str())?;
    list.push(' ')?;
    list.push_str(escaped(alloc, store_text(alloc)?.bytes())?.as_str())?;
    Ok(list)
}

//! Recipes, read line by line.
ghost use Rattle.std.specs.Prelude.{◌≡◌, ◌<◌, ◌≤◌, ◌∷◌, [], IfOk, IfErr, IsTrue, Ok, Err, None, length, map, ℕ};
ghost use Rattle.ucm_base.specs.Limits.{need_limit};
ghost use Rattle.scenario.specs.declared.why.Why.{Why};
ghost use Rattle.scenario.specs.Readings.{Becomes};
ghost use Rattle.recipe.specs.Lines.{lines_in};
ghost use Rattle.recipe.specs.Packing.{first_word};
ghost use Rattle.recipe.specs.Recipes.{below, below_words, made_by, made_of, recipe_of, step_by};

use crate::fault::{PackError, fault_at};
use crate::made::Made;
use crate::words::{Making, PartWords, is_step, making_of, node, read_part};
use scenario::{Why, WordError, first_piece};
use std::alloc::Global;
use ucm_base::limits::NEED_LIMIT;
use ucm_text::words_of;

/// Adds the part that these words make, with these needs, to the package of a name.
fn make_part(
    alloc: Global,
    made: &mut Made,
    making: Making,
    named: &[u8],
    words: &PartWords<'_>,
    needed: &[&[u8]],
) -> Result<(), WordError>
    requires { length needed.now ≤ need_limit }
    ensures { Becomes result made.new (made_of made.old making named.now
        words.now.action.now words.now.cluster.now words.now.version.now words.now.block.now
        (map (λ w. w.now) needed.now)) }
{
    let name = made.owner(making, named)?;
    let part = read_part(alloc, words, needed)?;
    made.put(alloc, making, name, part)
}

/// Adds what a line makes, by its words behind the first.
fn make(alloc: Global, made: &mut Made, making: Making, words: &[&[u8]]) -> Result<(), WordError>
    ensures { Becomes result made.new
        (made_by made.old making (map (λ w. w.now) words.now)) }
{
    match words {
        [named, action, cluster, version, block, needed @ ..] => {
            if needed.len() as u64 > NEED_LIMIT {
                return Err(WordError::Refused(Why::Form));
            }
            let words = PartWords {
                action,
                cluster,
                version,
                block,
            };
            make_part(alloc, made, making, named, &words, needed)
        }
        _ => Err(WordError::Refused(Why::Form)),
    }
}

/// Adds the step of a line, by its words behind the first.
fn make_step(alloc: Global, made: &mut Made, words: &[&[u8]]) -> Result<(), WordError>
    ensures { Becomes result made.new (step_by made.old (map (λ w. w.now) words.now)) }
{
    match words {
        [on, named] => {
            let node = node(on)?;
            let name = scenario::name(named)?;
            made.add_step(alloc, node, &name)
        }
        _ => Err(WordError::Refused(Why::Form)),
    }
}

/// Adds what these words of a line make.
fn add_words(alloc: Global, made: &mut Made, words: &[&[u8]]) -> Result<(), WordError>
    ensures { Becomes result made.new
        (below_words made.old (map (λ w. w.now) words.now)) }
{
    match words {
        [first, words @ ..] if is_step(first) => make_step(alloc, made, words),
        [first, words @ ..] => match making_of(first) {
            Some(making) => make(alloc, made, making, words),
            None => Ok(()),
        },
        [] => Ok(()),
    }
}

/// The first word of a line.
pub(crate) fn first_word(line: &[u8]) -> &[u8]
    ensures { result.now ≡ first_word line.now }
{
    let (word, _) = first_piece(line, b' ');
    word
}

/// Adds what a line makes. A line that isn't a recipe's own takes no memory.
fn add_line(alloc: Global, made: &mut Made, line: &[u8]) -> Result<(), WordError>
    ensures { Becomes result made.new (below made.old line.now) }
{
    let first = first_word(line);
    if !is_step(first) && making_of(first).is_none() {
        return Ok(());
    }
    let words = words_of(alloc, line)?;
    add_words(alloc, made, words.as_slice())
}

/// The first line of a text, and the text behind it.
pub(crate) fn first_line(text: &[u8]) -> (&[u8], &[u8])
    requires { 0 < length text.now }
    ensures lines { lines_in text.now ≡ result.0.now ∷ lines_in result.1.now }
    ensures rest { length result.1.now < length text.now }
{
    let (line, rest) = first_piece(text, b'\n');
    (line, rest.unwrap_or(&[]))
}

/// What all lines of a recipe make.
pub(crate) fn read_recipe(alloc: Global, input: &[u8]) -> Result<Made, PackError>
    ensures made { IfOk result (λ made. recipe_of input.now ≡ Ok made) }
    ensures refused { IfErr result (λ e. (line : ℕ) (why : Why) → e ≡ PackError.Refused line why
        → recipe_of input.now ≡ Err (record { line = line; why = why })) }
{
    let mut made = Made::new(alloc);
    let mut number = 1u64;
    let mut rest = input;
    'lines: while !rest.is_empty() {
        let (line, behind) = first_line(rest);
        if let Err(fault) = add_line(alloc, &mut made, line) {
            return Err(fault_at(number, fault));
        }
        number += 1;
        rest = behind;
    }
    Ok(made)
}

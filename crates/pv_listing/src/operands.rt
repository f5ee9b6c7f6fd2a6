//! What is written after a mnemonic.

ghost use Rattle.std.specs.Prelude.{◌≡◌, IfOk};
ghost use Rattle.std.specs.Option.{option_map};
ghost use Rattle.pv_format.specs.Combinators.{one, exactly};
ghost use Rattle.pv_format.specs.Reading.{read_both};
ghost use Rattle.pv_format.specs.Seen.{texts};
ghost use Rattle.pv_token.specs.Tokens.{int_token};
ghost use Rattle.pv_listing.specs.declared.mnemonic.Kind.TheVariants as kind;
ghost use Rattle.pv_listing.specs.Further.{each_two};
ghost use Rattle.pv_listing.specs.Words.{label_token, field_token, method_token};
ghost use Rattle.pv_listing.specs.Operands.{ascend, read_kind};

use crate::line::Operands;
use crate::mnemonic::Kind;
use crate::name::{read_field, read_label, read_labels, read_method, take_label, take_name};
use crate::number::{Byte, Short, Small};
use pv_list::Listed;
use pv_token::{Int, Long, Token, take};
use pv_value::{Memory, Name, Sym};
use std::alloc::Global;

/// One more than the greatest int.
const AFTER_INTS: i64 = 1 << 31;

/// The only word, as a value.
pub fn only<'w, T: Token>(words: &'w [&'w [u8]]) -> Option<T::Value>
    ensures { result ≡ (exactly (one T.token)).reads (texts words.now) }
{
    match words {
        [word] => T::read(word),
        _ => None,
    }
}

// No words.
fn read_nothing<'w>(words: &'w [&'w [u8]]) -> Option<Operands>
    ensures { result ≡ read_kind kind.Nothing (texts words.now) }
{
    if words.is_empty() {
        Some(Operands::Nothing)
    } else {
        None
    }
}

// The number of a local, and what is added to it.
fn read_increment<'w>(words: &'w [&'w [u8]]) -> Option<Operands>
    ensures { result ≡ read_kind kind.Increment (texts words.now) }
{
    let (local, words) = take::<Small>(words)?;
    let number = only::<Byte>(words)?;
    Some(Operands::Increment(local, number))
}

// A label alone.
fn read_target<'w>(alloc: Global, words: &'w [&'w [u8]]) -> Result<Option<Operands>, Memory>
    ensures { IfOk result (λ r. r ≡ read_kind kind.Label (texts words.now)) }
{
    match words {
        [word] => Ok(read_label(alloc, word)?.map(Operands::Label)),
        _ => Ok(None),
    }
}

// LOW DEFAULT LABELS
fn read_table<'w>(alloc: Global, words: &'w [&'w [u8]]) -> Result<Option<Operands>, Memory>
    ensures { IfOk result (λ r. r ≡ read_kind kind.Table (texts words.now)) }
{
    let Some((low, words)) = take::<Int>(words) else {
        return Ok(None);
    };
    let Some((default, words)) = take_label(alloc, words)? else {
        return Ok(None);
    };
    let Some(labels) = read_labels(alloc, words)? else {
        return Ok(None);
    };
    let most = (AFTER_INTS - i64::from(low)) as usize;
    let count = labels.as_slice().len();
    if count > 0 && count <= most {
        Ok(Some(Operands::Table(low, default, labels)))
    } else {
        Ok(None)
    }
}

// KEY LABEL
fn read_pair(alloc: Global, key: &[u8], label: &[u8]) -> Result<Option<(i32, Name)>, Memory>
    ensures { IfOk result (λ r. r ≡ read_both int_token.reads label_token.reads (key.now, label.now)) }
{
    let Some(key) = Int::read(key) else {
        return Ok(None);
    };
    let Some(label) = read_label(alloc, label)? else {
        return Ok(None);
    };
    Ok(Some((key, label)))
}

// KEY LABEL KEY LABEL
fn read_pairs<'w>(alloc: Global, words: &'w [&'w [u8]]) -> Result<Option<Vec<(i32, Name)>>, Memory>
    ensures { IfOk result (λ r. option_map (λ v. v.items) r ≡ (each_two int_token label_token).reads (texts words.now)) }
{
    let mut list = Vec::new(alloc);
    let mut rest = words;
    while let [key, label, more @ ..] = rest {
        let Some(pair) = read_pair(alloc, key, label)? else {
            return Ok(None);
        };
        list.push(pair)?;
        rest = more;
    }
    if rest.is_empty() {
        Ok(Some(list))
    } else {
        Ok(None)
    }
}

// Whether the keys ascend strictly.
fn ascend(pairs: &[(i32, Name)]) -> bool
    ensures { result ≡ ascend pairs.now }
{
    let mut rest = pairs;
    while let [first, second, ..] = rest {
        if first.0 >= second.0 {
            return false;
        }
        rest = &rest[1..];
    }
    true
}

// DEFAULT KEY LABEL KEY LABEL
fn read_lookup<'w>(alloc: Global, words: &'w [&'w [u8]]) -> Result<Option<Operands>, Memory>
    ensures { IfOk result (λ r. r ≡ read_kind kind.Lookup (texts words.now)) }
{
    let Some((default, words)) = take_label(alloc, words)? else {
        return Ok(None);
    };
    let Some(pairs) = read_pairs(alloc, words)? else {
        return Ok(None);
    };
    if ascend(&pairs) {
        Ok(Some(Operands::Lookup(default, Listed::from(pairs))))
    } else {
        Ok(None)
    }
}

// The descriptor of a field alone.
fn only_field<'w>(alloc: Global, words: &'w [&'w [u8]]) -> Result<Option<Name>, Memory>
    ensures { IfOk result (λ r. r ≡ (exactly (one field_token)).reads (texts words.now)) }
{
    match words {
        [word] => read_field(alloc, word),
        _ => Ok(None),
    }
}

// CLASS NAME DESC of a field
fn read_field_of<'w>(alloc: Global, words: &'w [&'w [u8]]) -> Result<Option<Operands>, Memory>
    ensures { IfOk result (λ r. r ≡ read_kind kind.Field (texts words.now)) }
{
    let Some((class, words)) = take_name(alloc, words)? else {
        return Ok(None);
    };
    let Some((name, words)) = take_name(alloc, words)? else {
        return Ok(None);
    };
    let Some(desc) = only_field(alloc, words)? else {
        return Ok(None);
    };
    Ok(Some(Operands::Member(Sym { class, name, desc })))
}

// The descriptor of a method alone.
fn only_method<'w>(alloc: Global, words: &'w [&'w [u8]]) -> Result<Option<Name>, Memory>
    ensures { IfOk result (λ r. r ≡ (exactly (one method_token)).reads (texts words.now)) }
{
    match words {
        [word] => read_method(alloc, word),
        _ => Ok(None),
    }
}

// CLASS NAME DESC of a method
fn read_method_of<'w>(alloc: Global, words: &'w [&'w [u8]]) -> Result<Option<Operands>, Memory>
    ensures { IfOk result (λ r. r ≡ read_kind kind.Method (texts words.now)) }
{
    let Some((class, words)) = take_name(alloc, words)? else {
        return Ok(None);
    };
    let Some((name, words)) = take_name(alloc, words)? else {
        return Ok(None);
    };
    let Some(desc) = only_method(alloc, words)? else {
        return Ok(None);
    };
    Ok(Some(Operands::Member(Sym { class, name, desc })))
}

/// The operands that words spell after a mnemonic of a kind.
pub fn read_operands<'w>(
    alloc: Global,
    kind: Kind,
    words: &'w [&'w [u8]],
) -> Result<Option<Operands>, Memory>
    ensures { IfOk result (λ r. r ≡ read_kind kind (texts words.now)) }
{
    match kind {
        Kind::Nothing => Ok(read_nothing(words)),
        Kind::Byte => Ok(only::<Byte>(words).map(|n| Operands::Number(i16::from(n)))),
        Kind::Short => Ok(only::<Short>(words).map(Operands::Number)),
        Kind::Local => Ok(only::<Small>(words).map(Operands::Local)),
        Kind::Increment => Ok(read_increment(words)),
        Kind::Int => Ok(only::<Int>(words).map(Operands::Int)),
        Kind::Long => Ok(only::<Long>(words).map(Operands::Long)),
        Kind::Label => read_target(alloc, words),
        Kind::Table => read_table(alloc, words),
        Kind::Lookup => read_lookup(alloc, words),
        Kind::Field => read_field_of(alloc, words),
        Kind::Method => read_method_of(alloc, words),
    }
}

//! The keys of a turn's steps, kept short.
ghost use Rattle.std.specs.Prelude.{◌≡◌, ◌↔◌, ◌+◌, ◌<◌, ◌≤◌, ◌%◌, ◌^◌, ◌++◌, [], IsTrue, IfOk, IfErr, IfSome, length, get_or, replicate, slice_index, vec_len};
ghost use Rattle.x10_hall.specs.KeyLists.{in_rounds, keys_in, Recurs};

use std::alloc::{AllocError, Global};
use std::marker::Model;
use std::mem;

/// For how many keys room is made where a second one comes: those of a turn.
const ROOM: usize = 64;

/// How keys are kept.
#[derive(Drop)]
enum Form {
    /// One key, this often.
    Same(usize, usize),
    /// A round of keys, again and again, up to so many.
    Round(Vec<usize>, usize),
}

/// The keys of steps, one after another. Where all are the same, as in a stretch of steps of one activity, they take no memory
/// beyond the struct. Where they go round, as steps of activities in turn do, they take a word for each of a round; else a
/// word for each.
#[derive(Drop)]
pub struct Keys {
    form: Form,
}

impl Model for Keys {
    ghost use Rattle.std.specs.Prelude.{ℕ, List};
    ghost use Rattle.x10_hall.specs.KeyLists.{keys_in};

    ghost Value = { List ℕ };

    ghost view = { λ k. keys_in k.form };
}

/// The one key that a list has, perhaps many times, if it has one and no other.
fn only_key(keys: &[usize]) -> Option<usize>
    ensures { IfSome result (λ key. keys.now ≡ replicate (length keys.now) key) }
{
    let key = *keys.first()?;
    for at in 0..keys.len() {
        if keys[at] != key {
            return None;
        }
    }
    Some(key)
}

/// Whether two lists of keys are kept in the same way, and so are the same.
fn same_form(form: &Form, other: &Form) -> bool
    ensures { IsTrue result → keys_in form.now ≡ keys_in other.now }
{
    match (form, other) {
        (Form::Same(key, count), Form::Same(other_key, other_count)) => {
            key == other_key && count == other_count
        }
        (Form::Round(round, count), Form::Round(other_round, other_count)) => {
            round == other_round && count == other_count
        }
        (Form::Same(_, _), Form::Round(_, _)) | (Form::Round(_, _), Form::Same(_, _)) => false,
    }
}

/// The position at which the first key comes again; the number of keys where it doesn't.
fn next_first(keys: &[usize]) -> usize
    ensures within { result ≤ length keys.now }
    ensures past { 0 < length keys.now → 0 < result }
{
    for at in 1..keys.len() {
        if keys[at] == keys[0] {
            return at;
        }
    }
    keys.len()
}

/// Whether the keys before a position come again and again behind it.
fn recurs(keys: &[usize], period: usize) -> bool
    requires { 0 < period }
    ensures { IsTrue result → Recurs keys.now period }
{
    for at in period..keys.len() {
        if keys[at] != keys[at - period] {
            return false;
        }
    }
    true
}

/// The key at a position of a list that goes round.
fn in_round(round: &[usize], position: usize) -> usize
    ensures { result ≡ get_or round.now (position % length round.now) 0 }
{
    if round.is_empty() {
        return 0;
    }
    round[position % round.len()]
}

/// The keys up to where the first one comes again, if these go round; else all of them.
fn round_of(keys: &[usize]) -> &[usize]
    ensures { keys.now ≡ in_rounds result.now (length keys.now) }
{
    let period = next_first(keys);
    if period == 0 || !recurs(keys, period) {
        return keys;
    }
    &keys[..period]
}

/// The keys of a round up to so many, one after another.
fn unrolled(alloc: Global, round: &[usize], count: usize) -> Result<Vec<usize>, AllocError>
    ensures { IfOk result (λ keys. keys.items ≡ in_rounds round.now count) }
{
    let mut keys = Vec::with_capacity(alloc, count)?;
    for at in 0..count {
        keys.push(in_round(round, at))?;
    }
    Ok(keys)
}

/// Puts a key `count` times behind a list.
fn extend(list: &mut Vec<usize>, key: usize, count: usize) -> Result<(), AllocError>
    requires { vec_len list.old + count < 2 ^ 64 }
    ensures { IfOk result (λ _. list.new.items ≡ list.old.items ++ replicate count key) }
{
    let all = list.len() + count;
    list.resize(all, key)
}

/// A list of keys, with a key `count` times behind them.
fn listed(mut list: Vec<usize>, key: usize, count: usize) -> Result<Form, AllocError>
    requires { vec_len list + count < 2 ^ 64 }
    ensures { IfOk result (λ form. keys_in form ≡ list.items ++ replicate count key) }
{
    extend(&mut list, key, count)?;
    let all = list.len();
    Ok(Form::Round(list, all))
}

/// Keys with a key `count` times behind them.
fn with_key(alloc: Global, form: Form, key: usize, count: usize) -> Result<Form, AllocError>
    requires { length (keys_in form) + count < 2 ^ 64 }
    ensures { IfOk result (λ made. keys_in made ≡ keys_in form ++ replicate count key) }
{
    match form {
        Form::Same(_, 0) => Ok(Form::Same(key, count)),
        Form::Same(same, before) if same == key => Ok(Form::Same(key, before + count)),
        Form::Same(same, before) => listed(repeated(alloc, same, before)?, key, count),
        Form::Round(list, before) if before == list.len() => listed(list, key, count),
        Form::Round(round, before) => listed(unrolled(alloc, &round, before)?, key, count),
    }
}

/// The same keys, folded where they are a list that goes round.
fn folded_form(alloc: Global, form: Form) -> Result<Form, AllocError>
    ensures { IfOk result (λ made. keys_in made ≡ keys_in form) }
{
    match form {
        Form::Round(list, count) if count == list.len() => {
            let round = Vec::from_slice(alloc, round_of(&list))?;
            Ok(Form::Round(round, count))
        }
        other => Ok(other),
    }
}

/// One key so often.
fn repeated(alloc: Global, key: usize, count: usize) -> Result<Vec<usize>, AllocError>
    ensures { IfOk result (λ keys. keys.items ≡ replicate count key) }
{
    let mut keys = Vec::with_capacity(alloc, ROOM)?;
    keys.resize(count, key)?;
    Ok(keys)
}

impl Keys {
    /// No key. Takes no memory.
    pub fn none() -> Keys
        ensures { result ≡ [] }
    {
        Keys {
            form: Form::Same(0, 0),
        }
    }

    /// Adds a key, `count` times, behind the others. Where it is the only one, this takes constant time and no memory; else the
    /// keys take a word each from then on, until they are folded. Where memory is refused, none is left.
    pub fn push(&mut self, alloc: Global, key: usize, count: usize) -> Result<(), AllocError>
        requires { length self.old + count < 2 ^ 64 }
        ensures ok { IfOk result (λ _. self.new ≡ self.old ++ replicate count key) }
        ensures err { IfErr result (λ _. self.new ≡ []) }
    {
        let form = mem::replace(&mut self.form, Form::Same(0, 0));
        self.form = with_key(alloc, form, key, count)?;
        Ok(())
    }

    /// The same keys, folded where they go round. Linear in their number.
    pub fn folded(self, alloc: Global) -> Result<Keys, AllocError>
        ensures { IfOk result (λ folded. folded ≡ self) }
    {
        let Keys { form } = self;
        let form = folded_form(alloc, form)?;
        Ok(Keys { form })
    }

    /// These keys. Linear in their number; takes memory only where they differ.
    pub fn new(alloc: Global, keys: &[usize]) -> Result<Keys, AllocError>
        ensures { IfOk result (λ made. made ≡ keys.now) }
    {
        let form = match only_key(keys) {
            Some(key) => Form::Same(key, keys.len()),
            None => Form::Round(Vec::from_slice(alloc, round_of(keys))?, keys.len()),
        };
        Ok(Keys { form })
    }

    /// How many there are.
    pub fn len(&self) -> usize
        ensures { result ≡ length self.now }
    {
        match &self.form {
            Form::Same(_, count) => *count,
            Form::Round(_, count) => *count,
        }
    }

    /// Whether there is none.
    pub fn is_empty(&self) -> bool
        ensures { IsTrue result ↔ (length self.now ≡ 0) }
    {
        self.len() == 0
    }

    /// The key at a position.
    pub fn at(&self, position: usize) -> usize
        requires { position < length self.now }
        ensures { result ≡ slice_index self.now position }
    {
        match &self.form {
            Form::Same(key, _) => *key,
            Form::Round(round, _) => in_round(round, position),
        }
    }

    /// Whether these are the same keys in the same order. Linear in their number at most, and in that of a round where both were
    /// made alike.
    pub fn is_same(&self, other: &Keys) -> bool
        ensures { IsTrue result ↔ (self.now ≡ other.now) }
    {
        if same_form(&self.form, &other.form) {
            return true;
        }
        if self.len() != other.len() {
            return false;
        }
        for at in 0..self.len() {
            if self.at(at) != other.at(at) {
                return false;
            }
        }
        true
    }

    /// The same keys again.
    pub fn copied(&self, alloc: Global) -> Result<Keys, AllocError>
        ensures { IfOk result (λ copy. copy ≡ self.now) }
    {
        let form = match &self.form {
            Form::Same(key, count) => Form::Same(*key, *count),
            Form::Round(round, count) => Form::Round(Vec::from_slice(alloc, round)?, *count),
        };
        Ok(Keys { form })
    }
}

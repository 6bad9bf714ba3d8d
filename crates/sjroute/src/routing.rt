//! One message to the outputs whose rules it meets.

ghost use Rattle.std.specs.Prelude.{◌≡◌, ◌↔◌, ◌++◌, ◌∷◌, [], Some, IsTrue, OnOk, OnErr, IfOk, string_bytes};
ghost use Rattle.sj_text_core.specs.Keep.{keep};
ghost use Rattle.sj_text_core.specs.Print.{compact};
ghost use Rattle.sj_text_core.specs.declared.repeats.Repeats.TheVariants.{First};
ghost use Rattle.sj_tape.specs.Value.{tape_tree, tape_choice};
ghost use Rattle.sj_document.specs.Document.{document_tree};
ghost use Rattle.sj_merge.specs.Merge.{merged};
ghost use Rattle.sjroute.specs.Routed.{AllTaken, Grown, IsUnmet, IsUnread, MeetsAny, MeetsRule, TakesMessage, line_to, text_to, written_line};

use crate::rule::Rule;
use sj_merge::into_merged;
use sj_owned::{JsonError, Value as Owned, Writable, owned_from_tape};
use sj_tape::Value;
use std::alloc::Global;

/// Which lines an output takes.
#[derive(Debug, Drop)]
pub enum Takes {
    /// The messages that meet the rule.
    Met(Rule),
    /// The messages that meet no rule.
    Unmet,
    /// The lines that are not read.
    Unread,
}

/// An output: which lines it takes, and those that wait to be written.
#[derive(Debug, Drop)]
pub struct Route {
    pub output: String,
    pub takes: Takes,
    pub merge: Option<Owned>,
    pub waiting: Vec<u8>,
    pub count: u64,
}

/// Puts the line of a message behind those that wait; refused, it leaves them.
fn put_line(
    alloc: Global,
    patch: &Option<Owned>,
    text: &[u8],
    message: Value,
    waiting: &mut Vec<u8>,
) -> Result<(), JsonError>
    requires { tape_choice message ≡ First }
    ensures ok { OnOk result (waiting.new.items ≡ waiting.old.items ++ written_line patch.now text.now (tape_tree message.entry)) }
    ensures refused { OnErr result (waiting.new.items ≡ waiting.old.items) }
{
    match patch {
        None => put_text(text, waiting),
        Some(patch) => put_merged(alloc, patch, message, waiting),
    }
}

/// Puts the text as it came; refused, it leaves those that wait.
fn put_text(text: &[u8], waiting: &mut Vec<u8>) -> Result<(), JsonError>
    ensures ok { OnOk result (waiting.new.items ≡ waiting.old.items ++ (text.now ++ 10 ∷ [])) }
    ensures refused { OnErr result (waiting.new.items ≡ waiting.old.items) }
{
    // Room for the line feed too, which is then not refused alone.
    waiting.reserve(text.len() + 1)?;
    waiting.extend_from_slice(text)?;
    waiting.push(b'\n')?;
    Ok(())
}

/// Puts the message as the patch makes it; refused, it leaves those that wait.
fn put_merged(
    alloc: Global,
    patch: &Owned,
    message: Value,
    waiting: &mut Vec<u8>,
) -> Result<(), JsonError>
    requires { tape_choice message ≡ First }
    ensures ok { OnOk result (waiting.new.items ≡ waiting.old.items ++ (compact (merged (Some (keep (tape_tree message.entry))) (document_tree string_bytes patch.now)) ++ 10 ∷ [])) }
    ensures refused { OnErr result (waiting.new.items ≡ waiting.old.items) }
{
    let document = owned_from_tape(alloc, message)?;
    let document = into_merged(alloc, document, patch.clone()?)?;
    let before = waiting.len();
    document.write(waiting)?;
    if waiting.push(b'\n').is_err() {
        waiting.truncate(before);
        return Err(JsonError::OutOfMemory);
    }
    Ok(())
}

impl Route {
    /// Whether the route has a rule that selects the message.
    fn is_met(&self, message: Value) -> bool
        requires { tape_choice message ≡ First }
        ensures { IsTrue result ↔ MeetsRule (tape_tree message.entry) self.now.takes }
    {
        match &self.takes {
            Takes::Met(rule) => rule.selects(message),
            Takes::Unmet | Takes::Unread => false,
        }
    }

    /// Whether it takes the messages that meet no rule.
    fn is_unmet(&self) -> bool
        ensures { IsTrue result ↔ IsUnmet self.now.takes }
    {
        matches!(self.takes, Takes::Unmet)
    }

    /// Whether it takes the lines that are not read.
    fn is_unread(&self) -> bool
        ensures { IsTrue result ↔ IsUnread self.now.takes }
    {
        matches!(self.takes, Takes::Unread)
    }

    /// Puts the line of the message behind those that wait; refused, it leaves them.
    fn put(&mut self, alloc: Global, text: &[u8], message: Value) -> Result<(), JsonError>
        requires { tape_choice message ≡ First }
        ensures ok { OnOk result (Grown (line_to text.now (tape_tree message.entry) self.old) self.old self.new) }
        ensures refused { OnErr result (self.new.waiting.items ≡ self.old.waiting.items) }
    {
        put_line(alloc, &self.merge, text, message, &mut self.waiting)?;
        self.count = self.count.saturating_add(1);
        Ok(())
    }

    /// Puts the text as it came behind those that wait; refused, it leaves them.
    fn put_text(&mut self, text: &[u8]) -> Result<(), JsonError>
        ensures ok { OnOk result (Grown (text_to text.now self.old) self.old self.new) }
        ensures refused { OnErr result (self.new.waiting.items ≡ self.old.waiting.items) }
    {
        put_text(text, &mut self.waiting)?;
        self.count = self.count.saturating_add(1);
        Ok(())
    }
}

/// Puts the message to each output whose rule it meets, and answers whether it met one.
fn put_met(
    alloc: Global,
    routes: &mut [Route],
    text: &[u8],
    message: Value,
) -> Result<bool, JsonError>
    requires { tape_choice message ≡ First }
    ensures any { IfOk result (λ met. IsTrue met ↔ MeetsAny (tape_tree message.entry) routes.old) }
    ensures taken { OnOk result (AllTaken (MeetsRule (tape_tree message.entry)) (line_to text.now (tape_tree message.entry)) routes.old routes.new) }
{
    let mut is_any = false;
    for route in routes.iter_mut() {
        if route.is_met(message) {
            route.put(alloc, text, message)?;
            is_any = true;
        }
    }
    Ok(is_any)
}

/// Puts the message to each output that takes those that meet no rule.
fn put_unmet(
    alloc: Global,
    routes: &mut [Route],
    text: &[u8],
    message: Value,
) -> Result<(), JsonError>
    requires { tape_choice message ≡ First }
    ensures { OnOk result (AllTaken IsUnmet (line_to text.now (tape_tree message.entry)) routes.old routes.new) }
{
    for route in routes.iter_mut() {
        if route.is_unmet() {
            route.put(alloc, text, message)?;
        }
    }
    Ok(())
}

/// Puts the message to each output that takes it, and answers whether it met a rule.
pub fn put_message(
    alloc: Global,
    routes: &mut [Route],
    text: &[u8],
    message: Value,
) -> Result<bool, JsonError>
    requires { tape_choice message ≡ First }
    ensures any { IfOk result (λ met. IsTrue met ↔ MeetsAny (tape_tree message.entry) routes.old) }
    ensures taken { IfOk result (λ met. AllTaken (TakesMessage met (tape_tree message.entry)) (line_to text.now (tape_tree message.entry)) routes.old routes.new) }
{
    let is_met = put_met(alloc, routes, text, message)?;
    if !is_met {
        put_unmet(alloc, routes, text, message)?;
    }
    Ok(is_met)
}

/// Puts the text to each output that takes lines that are not read.
pub fn put_unread(routes: &mut [Route], text: &[u8]) -> Result<(), JsonError>
    ensures { OnOk result (AllTaken IsUnread (text_to text.now) routes.old routes.new) }
{
    for route in routes.iter_mut() {
        if route.is_unread() {
            route.put_text(text)?;
        }
    }
    Ok(())
}

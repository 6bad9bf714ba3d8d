//! A router: where a message goes, and what is written of it.

ghost use Rattle.std.specs.Prelude.{◌≡◌, ℕ, List, ◌++◌, ◌∷◌, [], Some, OnOk, OnErr};
ghost use Rattle.std.specs.Cow.{cow_str_bytes};
ghost use Rattle.sj_text_core.specs.Tree.{Tree};
ghost use Rattle.sj_text_core.specs.Grammar.{Spells};
ghost use Rattle.sj_text_core.specs.Print.{compact};
ghost use Rattle.sj_text_core.specs.declared.repeats.Repeats.TheVariants.{First};
ghost use Rattle.sj_lazy.specs.Value.{value_tree, value_choice, value_kept, owned};
ghost use Rattle.sj_uses.specs.Routing.{route, hopped, route_name, forwarded};

use sj_borrowed::KnownKey;
use sj_lazy::prelude::*;
use sj_lazy::{BorrowedValue, JsonError, Value, to_tape};
use sj_path::{Pointer, lazy, pointer};
use std::alloc::Global;

/// Where a message goes.
#[derive(Clone, Copy)]
pub enum Route {
    Alerts,
    News,
    Other,
}

impl Route {
    fn name(self) -> &'static str
        ensures { result.now ≡ route_name self }
    {
        match self {
            Route::Alerts => "alerts ",
            Route::News => "news ",
            Route::Other => "other ",
        }
    }
}

/// What routes messages.
#[derive(Drop)]
pub struct Router {
    topic: KnownKey<'static>,
    hops: KnownKey<'static>,
    urgent: Pointer,
}

impl Router {
    /// Messages with something at `/head/urgent` go to alerts, those of the topic news to news.
    pub fn new(alloc: Global) -> Result<Router, JsonError> {
        Ok(Router {
            topic: KnownKey::from("topic"),
            hops: KnownKey::from("hops"),
            urgent: pointer(alloc, "/head/urgent")?,
        })
    }

    /// Where the message goes. Nothing is built.
    fn route_of(&self, message: &Value) -> Route
        requires { value_choice message.now ≡ First }
        ensures { result ≡ route (cow_str_bytes self.now.topic) self.now.urgent (value_tree message.now) }
    {
        if lazy::find(message, &self.urgent).is_some() {
            return Route::Alerts;
        }
        match message.get_str(self.topic.key()) {
            Some("news") => Route::News,
            _ => Route::Other,
        }
    }

    /// One more hop; the message is then a document.
    fn count_hop(&self, alloc: Global, message: &mut Value) -> Result<(), JsonError>
        ensures { OnOk result (owned cow_str_bytes message.new ≡ Some (hopped (cow_str_bytes self.now.hops) (value_kept message.old))) }
    {
        let document = message.as_mut(alloc)?;
        let hops = match self.hops.lookup(document) {
            Some(value) => value.as_u32().unwrap_or(0),
            None => 0,
        };
        self.hops
            .insert(document, BorrowedValue::from(u64::from(hops) + 1))?;
        Ok(())
    }

    /// Reads a message and writes it behind the name of its route; a message to news has one hop
    /// more. Refused, it leaves what was written.
    pub fn forward(
        &self,
        alloc: Global,
        line: &mut [u8],
        out: &mut Vec<u8>,
    ) -> Result<(), JsonError>
        ensures ok { OnOk result ((t : Tree) × Spells line.old t × (out.new.items ≡ out.old.items ++ forwarded (cow_str_bytes self.now.topic) self.now.urgent (cow_str_bytes self.now.hops) t)) }
        ensures err { OnErr result (out.new.items ≡ out.old.items) }
    {
        let tape = to_tape(alloc, line)?;
        let mut message = Value::from_tape(tape.as_value());
        let route = self.route_of(&message);
        if let Route::News = route {
            self.count_hop(alloc, &mut message)?;
        }
        let before = out.len();
        match write_line(&message, route.name(), out) {
            Ok(()) => Ok(()),
            Err(error) => {
                out.truncate(before);
                Err(error)
            }
        }
    }
}

fn write_line(message: &Value, name: &str, out: &mut Vec<u8>) -> Result<(), JsonError>
    ensures ok { OnOk result (out.new.items ≡ out.old.items ++ ((name.now ++ compact (value_tree message.now)) ++ 10 ∷ [])) }
    ensures err { OnErr result ((more : List ℕ) × (out.new.items ≡ out.old.items ++ more)) }
{
    out.extend_from_slice(name.as_bytes())?;
    message.write(out)?;
    out.push(b'\n')?;
    Ok(())
}

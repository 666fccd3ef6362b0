//! The contexts of calls of components.

ghost use Rattle.std.specs.Prelude.{◌≡◌, ℕ, List, [], map, length, IfOk, MatchResult, Result, Option};
ghost use Rattle.std.specs.Borrow.{Bor};
ghost use Rattle.std.specs.Cmp.Lexicographic.{slice_cmp};
ghost use Rattle.std.specs.Fn.{FnReturnsAt};
ghost use Rattle.std.specs.Iterator.{Drains, IsFinite};
ghost use Rattle.std.specs.List.Sorted.{IsStrictlySortedBy};
ghost use Rattle.std.specs.Ordering.{nat_cmp};
ghost use Rattle.tera_base.specs.Errors.{IsMemory};
ghost use Rattle.tera_tree.specs.Outcomes.{Outcome, ComesTo};
ghost use Rattle.tera_base.specs.Contexts.{context_view, put_all};
ghost use Rattle.tera_base.specs.ValueView.{value_view, pairs_view};
ghost use Rattle.tera_base.specs.declared.errors.Error.{Error};
ghost use Rattle.tera_base.specs.declared.values.Value.{Value};
ghost use Rattle.tera_ast.specs.View.{name_view};
ghost use Rattle.tera_tree.specs.View.{argument_view, definition_view};
ghost use Rattle.tera_tree.specs.Calls.{arguments_view, texts, unknown, found_outcome, RestNameComesTo, RestMapComesTo, RestComesTo, ArgumentComesTo, ArgumentsComeTo, BuildsContext, passed_pairs, body_pairs, IsAmong, IsAsked, argument_names};

use crate::arguments::message_error;
use crate::ast::{ComponentArgument, ComponentDefinition};
use crate::refusals::{no_value, unknown_arguments};
use std::alloc::{AllocError, Global};
use tera_base::{Context, Error, Key, Map, Value};

impl ComponentArgument {
    // What is found for the argument, or its default.
    fn found_value<H>(
        &self,
        alloc: Global,
        name: &str,
        get_implicit_value: &H,
    ) -> Result<Value, Error>
    where
        H: Fn(&str) -> Result<Value, Error>,
        requires { (n : Bor (List ℕ)) → n.now ≡ name.now → H.pre get_implicit_value.now n }
        ensures { ComesTo (λ v. (name.now, value_view v))
            (λ o. (answer : Result Value Error) ×
            FnReturnsAt H.Fn get_implicit_value.now name.now answer
            × (o ≡ found_outcome name.now (argument_view self.now) answer)) result }
    {
        let value = get_implicit_value(name)?;
        if value.is_undefined() {
            self.default_value(alloc, name)
        } else {
            self.checked(alloc, name, value)
        }
    }

    // What is passed for the argument, or found for it, or its default.
    fn value<G, H>(
        &self,
        alloc: Global,
        name: &str,
        get_value: &G,
        get_implicit_value: &H,
    ) -> Result<Value, Error>
    where
        G: Fn(&str) -> Result<Option<Value>, Error>,
        H: Fn(&str) -> Result<Value, Error>,
        requires value { (n : Bor (List ℕ)) → n.now ≡ name.now → G.pre get_value.now n }
        requires implicit { (n : Bor (List ℕ)) → n.now ≡ name.now → H.pre get_implicit_value.now n }
        ensures { ComesTo (λ v. (name.now, value_view v))
            (ArgumentComesTo (FnReturnsAt G.Fn get_value.now)
            (FnReturnsAt H.Fn get_implicit_value.now) (name.now, argument_view self.now)) result }
    {
        match get_value(name)? {
            Some(value) => self.checked(alloc, name, value),
            None => {
                if self.implicit {
                    self.found_value(alloc, name, get_implicit_value)
                } else {
                    self.default_value(alloc, name)
                }
            }
        }
    }
}

// What is passed under a name that is not an argument.
fn rest_value<G>(alloc: Global, name: &str, get_value: &G) -> Result<Value, Error>
where
    G: Fn(&str) -> Result<Option<Value>, Error>,
    requires { (n : Bor (List ℕ)) → n.now ≡ name.now → G.pre get_value.now n }
    ensures { ComesTo (λ v. (name.now, value_view v))
        (RestNameComesTo (FnReturnsAt G.Fn get_value.now) name.now) result }
{
    match get_value(name)? {
        Some(value) => Ok(value),
        None => Err(message_error(no_value(alloc, name))),
    }
}

// What is passed under the names that are not arguments, each name in the place where it came first.
fn rest_map<G>(alloc: Global, names: &[&str], get_value: &G) -> Result<Map, Error>
where
    G: Fn(&str) -> Result<Option<Value>, Error>,
    requires { (n : Bor (List ℕ)) → IsAmong (texts names.now) n.now → G.pre get_value.now n }
    ensures { ComesTo pairs_view
        (RestMapComesTo (FnReturnsAt G.Fn get_value.now) (texts names.now)) result }
{
    let mut map = Map::new(alloc);
    for name in names {
        let value = rest_value(alloc, name, get_value)?;
        let key = Key::String(String::from_str(alloc, name)?);
        drop(map.insert(key, value)?);
    }
    Ok(map)
}

impl ComponentDefinition {
    // The names that are not arguments.
    fn unknown_names<'a, I>(&self, alloc: Global, provided_keys: I) -> Result<Vec<&'a str>, Error>
    where
        I: Iterator<Item = &'a str> + Drop,
        requires can { I.can_next provided_keys }
        requires ends { IsFinite (I.remaining provided_keys) }
        ensures { MatchResult result
            (λ v. (names : List (Bor (List ℕ))) × Drains I.next_gives provided_keys names
            × (texts v.items ≡ unknown (arguments_view self.now.kwargs.entries) (texts names)))
            IsMemory }
    {
        let mut names = Vec::new(alloc);
        for name in provided_keys {
            if !self.kwargs.contains_key(name) {
                names.push(name)?;
            }
        }
        Ok(names)
    }

    // The arguments with their values.
    fn argument_values<G, H>(
        &self,
        alloc: Global,
        get_value: &G,
        get_implicit_value: &H,
    ) -> Result<Context, Error>
    where
        G: Fn(&str) -> Result<Option<Value>, Error>,
        H: Fn(&str) -> Result<Value, Error>,
        requires value { (n : Bor (List ℕ)) →
            IsAmong (argument_names (arguments_view self.now.kwargs.entries)) n.now →
            G.pre get_value.now n }
        requires implicit { (n : Bor (List ℕ)) →
            IsAmong (argument_names (arguments_view self.now.kwargs.entries)) n.now →
            H.pre get_implicit_value.now n }
        ensures { ComesTo context_view
            (ArgumentsComeTo (FnReturnsAt G.Fn get_value.now)
            (FnReturnsAt H.Fn get_implicit_value.now) (arguments_view self.now.kwargs.entries))
            result }
    {
        let mut context = Context::new(alloc);
        for (name, argument) in self.kwargs.iter() {
            let value = argument.value(alloc, name.as_str(), get_value, get_implicit_value)?;
            context.insert_value(name.as_str(), value)?;
        }
        Ok(context)
    }

    // What the rest parameter takes; without one, names that are not arguments are refused.
    fn rest_value<'s, G>(
        &'s self,
        alloc: Global,
        unknown: &[&str],
        get_value: &G,
    ) -> Result<Option<(&'s str, Value)>, Error>
    where
        G: Fn(&str) -> Result<Option<Value>, Error>,
        requires { (n : Bor (List ℕ)) → IsAmong (texts unknown.now) n.now → G.pre get_value.now n }
        ensures { ComesTo passed_pairs
            (RestComesTo (FnReturnsAt G.Fn get_value.now) (name_view self.now.rest_param_name)
            (arguments_view self.now.kwargs.entries) (texts unknown.now)) result }
    {
        match &self.rest_param_name {
            Some(name) => {
                let map = rest_map(alloc, unknown, get_value)?;
                Ok(Some((name.as_str(), Value::Map(map))))
            }
            None => {
                if unknown.is_empty() {
                    Ok(None)
                } else {
                    let message = unknown_arguments(alloc, unknown, self);
                    Err(message_error(message))
                }
            }
        }
    }

    // The names of the arguments, in byte order.
    pub(crate) fn listed_arguments(&self, alloc: Global) -> Result<Vec<&str>, AllocError>
        ensures names { IfOk result (λ v.
            texts v.items ≡ map (λ a. a.0) (arguments_view self.now.kwargs.entries)) }
        ensures ordered { IfOk result (λ v.
            IsStrictlySortedBy (slice_cmp nat_cmp) (texts v.items)) }
    {
        let mut names = Vec::new(alloc);
        for name in self.kwargs.keys() {
            names.push(name.as_str())?;
        }
        Ok(names)
    }

    /// The names of the arguments, in byte order.
    pub fn kwargs_list(&self, alloc: Global) -> Result<Vec<&str>, Error>
        ensures names { MatchResult result
            (λ v. texts v.items
            ≡ map (λ a. a.0) (arguments_view self.now.kwargs.entries)) IsMemory }
        ensures ordered { IfOk result (λ v.
            IsStrictlySortedBy (slice_cmp nat_cmp) (texts v.items)) }
    {
        Ok(self.listed_arguments(alloc)?)
    }

    /// The context of a call with these names, their values, and a body: what is passed for an argument,
    /// or found for an implicit one, or its default; other names in a map under the rest parameter; the
    /// body under `body`. An error of a function is passed on at once.
    pub fn build_context<'a, I, G, H>(
        &self,
        alloc: Global,
        provided_keys: I,
        get_value: G,
        get_implicit_value: H,
        body: Option<Value>,
    ) -> Result<Context, Error>
    where
        I: Iterator<Item = &'a str> + Drop,
        G: Fn(&str) -> Result<Option<Value>, Error> + Drop,
        H: Fn(&str) -> Result<Value, Error> + Drop,
        requires can { I.can_next provided_keys }
        requires ends { IsFinite (I.remaining provided_keys) }
        requires value { (n : Bor (List ℕ)) → IsAsked (arguments_view self.now.kwargs.entries)
            (Drains I.next_gives provided_keys) n.now → G.pre get_value n }
        requires implicit { (n : Bor (List ℕ)) →
            IsAmong (argument_names (arguments_view self.now.kwargs.entries)) n.now →
            H.pre get_implicit_value n }
        ensures { ComesTo context_view
            (BuildsContext (FnReturnsAt G.Fn get_value) (FnReturnsAt H.Fn get_implicit_value)
            (Drains I.next_gives provided_keys) (definition_view self.now) body) result }
    {
        let unknown = self.unknown_names(alloc, provided_keys)?;
        let rest = self.rest_value(alloc, &unknown, &get_value)?;
        let mut context = self.argument_values(alloc, &get_value, &get_implicit_value)?;
        put_value(&mut context, rest)?;
        put_value(&mut context, named_body(body))?;
        Ok(context)
    }
}

fn put_value(context: &mut Context, passed: Option<(&str, Value)>) -> Result<(), Error>
    ensures { MatchResult result
        (λ _. context_view context.new
        ≡ put_all (passed_pairs passed.entry) (context_view context.old)) IsMemory }
{
    match passed {
        Some((name, value)) => context.insert_value(name, value),
        None => Ok(()),
    }
}

fn named_body(body: Option<Value>) -> Option<(&'static str, Value)>
    ensures { passed_pairs result ≡ body_pairs body }
{
    match body {
        Some(value) => Some(("body", value)),
        None => None,
    }
}

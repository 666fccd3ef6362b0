//! The parts of expressions as they are shown.

ghost use Rattle.std.specs.Prelude.{Some, false, ◌++◌, [], codes, string_bytes};
ghost use Rattle.tera_ast.specs.View.{expression_view, name_view, maybe_view, args_view, item_view, items_view, entry_view, entries_view, nodes_view};
ghost use Rattle.tera_ast.specs.Text.{text, unary_text, binary_text, dot_text, bracket_text, names_text, call_text, closing_text, count_of, maybe_text, args_text, item_text, items_text, entry_text, entries_text};
ghost use Rattle.tera_ast.specs.declared.ast.ComponentCall.{out-ComponentCall};

use crate::ast::{
    ArrayEntryOf, ArrayOf, BinaryOperationOf, ComponentCall, Expression, FilterOf, FunctionCallOf,
    GetAttrOf, GetItemOf, ListComprehensionOf, MapEntry, MapEntryOf, MapOf, SliceOf, TernaryOf,
    TestOf, UnaryOperationOf, Var,
};
use crate::show;
use std::collections::BTreeMap;
use std::fmt;
use std::fmt::{Display, Formatter, Write};

impl Display for Var {
    ghost output = { λ v. Some (string_bytes v.name) };

    fn fmt<W: Write>(&self, f: &mut Formatter<W>) -> fmt::Result {
        f.write_str(self.name.as_str())
    }
}

impl Display for ArrayEntryOf<Expression> {
    ghost output = { λ e. Some (item_text (item_view e)) };

    fn fmt<W: Write>(&self, f: &mut Formatter<W>) -> fmt::Result {
        show::show_item(false, self, f)
    }
}

impl Display for MapEntryOf<Expression> {
    ghost output = { λ e. Some (entry_text (entry_view e)) };

    fn fmt<W: Write>(&self, f: &mut Formatter<W>) -> fmt::Result {
        show::show_entry(false, self, f)
    }
}

impl Display for ArrayOf<Expression> {
    ghost output = { λ x.
        Some (codes "[" ++ (items_text false (items_view x.items.items) ++ codes "]")) };

    fn fmt<W: Write>(&self, f: &mut Formatter<W>) -> fmt::Result {
        show::show_array(self, f)
    }
}

impl Display for MapOf<Expression> {
    ghost output = { λ x.
        Some (codes "{" ++ (entries_text false (entries_view x.entries.items) ++ codes "}")) };

    fn fmt<W: Write>(&self, f: &mut Formatter<W>) -> fmt::Result {
        show::show_map(self, f)
    }
}

impl Display for GetAttrOf<Expression> {
    ghost output = { λ x.
        Some (text (expression_view x.expr) ++ (dot_text x.optional ++ string_bytes x.name)) };

    fn fmt<W: Write>(&self, f: &mut Formatter<W>) -> fmt::Result {
        show::show_get_attr(self, f)
    }
}

impl Display for GetItemOf<Expression> {
    ghost output = { λ x. Some (text (expression_view x.expr)
        ++ (bracket_text x.optional ++ (text (expression_view x.sub_expr) ++ codes "]"))) };

    fn fmt<W: Write>(&self, f: &mut Formatter<W>) -> fmt::Result {
        show::show_get_item(self, f)
    }
}

impl Display for SliceOf<Expression> {
    ghost output = { λ x. Some (text (expression_view x.expr) ++ (bracket_text x.optional
        ++ (maybe_text [] (maybe_view x.start) ++ (maybe_text (codes ":") (maybe_view x.end)
        ++ (maybe_text (codes ":") (maybe_view x.step) ++ codes "]"))))) };

    fn fmt<W: Write>(&self, f: &mut Formatter<W>) -> fmt::Result {
        show::show_slice(self, f)
    }
}

impl Display for FilterOf<Expression> {
    ghost output = { λ x. Some (codes "(| " ++ (text (expression_view x.expr) ++ (codes " "
        ++ (call_text (string_bytes x.name) (args_text false (args_view x.kwargs.entries))
        ++ codes ")")))) };

    fn fmt<W: Write>(&self, f: &mut Formatter<W>) -> fmt::Result {
        show::show_filter(self, f)
    }
}

impl Display for TestOf<Expression> {
    ghost output = { λ x. Some (codes "(is " ++ (text (expression_view x.expr) ++ (codes " "
        ++ (call_text (string_bytes x.name) (args_text false (args_view x.kwargs.entries))
        ++ codes ")")))) };

    fn fmt<W: Write>(&self, f: &mut Formatter<W>) -> fmt::Result {
        show::show_test(self, f)
    }
}

impl Display for TernaryOf<Expression> {
    ghost output = { λ x.
        Some (text (expression_view x.true_expr) ++ (codes " if " ++ (text (expression_view x.expr)
        ++ (codes " else " ++ text (expression_view x.false_expr))))) };

    fn fmt<W: Write>(&self, f: &mut Formatter<W>) -> fmt::Result {
        show::show_ternary(self, f)
    }
}

impl Display for ListComprehensionOf<Expression> {
    ghost output = { λ x. Some (codes "[" ++ (text (expression_view x.expr)
        ++ (codes " for " ++ (names_text (name_view x.key) (string_bytes x.value)
        ++ (codes " in " ++ (text (expression_view x.target)
        ++ (maybe_text (codes " if ") (maybe_view x.condition) ++ codes "]"))))))) };

    fn fmt<W: Write>(&self, f: &mut Formatter<W>) -> fmt::Result {
        show::show_comprehension(self, f)
    }
}

impl Display for ComponentCall {
    ghost output = { λ x. let c = out-ComponentCall x in Some (codes "<"
        ++ (call_text (string_bytes c.name) (entries_text false (entries_view c.kwargs.items))
        ++ closing_text (string_bytes c.name) c.self_closing
        (count_of (nodes_view c.body.items)))) };

    fn fmt<W: Write>(&self, f: &mut Formatter<W>) -> fmt::Result {
        show::show_component_call(self, f)
    }
}

impl Display for FunctionCallOf<Expression> {
    ghost output = { λ x.
        Some (call_text (string_bytes x.name) (args_text false (args_view x.kwargs.entries))) };

    fn fmt<W: Write>(&self, f: &mut Formatter<W>) -> fmt::Result {
        show::show_function_call(self, f)
    }
}

impl Display for UnaryOperationOf<Expression> {
    ghost output = { λ x. Some (codes "("
        ++ (unary_text x.op ++ (codes " " ++ (text (expression_view x.expr) ++ codes ")")))) };

    fn fmt<W: Write>(&self, f: &mut Formatter<W>) -> fmt::Result {
        show::show_unary(self, f)
    }
}

impl Display for BinaryOperationOf<Expression> {
    ghost output = { λ x.
        Some (codes "(" ++ (binary_text x.op ++ (codes " " ++ (text (expression_view x.left)
        ++ (codes " " ++ (text (expression_view x.right) ++ codes ")")))))) };

    fn fmt<W: Write>(&self, f: &mut Formatter<W>) -> fmt::Result {
        show::show_binary(self, f)
    }
}

/// A name with arguments.
#[derive(Clone, Copy)]
pub struct WithArguments<'a> {
    pub name: &'a str,
    pub kwargs: &'a BTreeMap<String, Expression>,
}

impl<'a> Display for WithArguments<'a> {
    ghost output = { λ x.
        Some (call_text x.name.now (args_text false (args_view x.kwargs.now.entries))) };

    fn fmt<W: Write>(&self, f: &mut Formatter<W>) -> fmt::Result {
        show::show_call(self.name, self.kwargs, f)
    }
}

/// A name with the attributes of a component call.
#[derive(Clone, Copy)]
pub struct WithAttributes<'a> {
    pub name: &'a str,
    pub kwargs: &'a Vec<MapEntry>,
}

impl<'a> Display for WithAttributes<'a> {
    ghost output = { λ x.
        Some (call_text x.name.now (entries_text false (entries_view x.kwargs.now.items))) };

    fn fmt<W: Write>(&self, f: &mut Formatter<W>) -> fmt::Result {
        show::show_attributes(self.name, self.kwargs, f)
    }
}

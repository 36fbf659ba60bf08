//! Laws of the grammar, each the contract of a function that does nothing.
ghost use Rattle.std.specs.Prelude.{◌≡◌, ◌≤◌, List};
ghost use Rattle.pg_ast.specs.declared.expr.Name.{Name};
ghost use Rattle.pg_ast.specs.declared.expr.Whole.{Whole};
ghost use Rattle.pg_ast.specs.declared.pattern.LabelExpr.{LabelExpr};
ghost use Rattle.pg_ast.specs.declared.counted.Scope.{Scope};
ghost use Rattle.pg_ast.specs.Words.Terminals.{Tokens};
ghost use Rattle.pg_ast.specs.Trees.{tree_of};
ghost use Rattle.pg_ast.specs.Trees.{label_tree};
ghost use Rattle.pg_ast.specs.Grammar.Limits.{operators, label_operators, AtMostOpen};
ghost use Rattle.pg_ast.specs.Grammar.Names as names;
ghost use Rattle.pg_ast.specs.Grammar.Labels as label;
ghost use Rattle.pg_ast.specs.Grammar.Exprs as expr;

/// A list of tokens is at most one list of names in parentheses.
pub fn one_list_of_names()
    ensures { (x y : List Name) (ts : Tokens) → names.names x ts → names.names y ts → x ≡ y }
{}

/// A list of tokens is at most one label expression.
pub fn one_label_expr()
    ensures { (x y : LabelExpr) (ts : Tokens) → label.labels x ts → label.labels y ts → x ≡ y }
{}

/// A list of tokens is at most one expression, wherever it stands.
pub fn one_whole()
    ensures { (s : Scope) (x y : Whole) (ts : Tokens) → expr.whole s x ts → expr.whole s y ts → x ≡ y }
{}

/// A label expression has at most 255 operators, and its tokens have at most 64 parentheses open at any place.
pub fn label_limits()
    ensures operators { (x : LabelExpr) (ts : Tokens) → label.labels x ts → label_operators (label_tree x) ≤ 255 }
    ensures nesting { (x : LabelExpr) (ts : Tokens) → label.labels x ts → AtMostOpen 64 ts }
{}

/// An expression has at most 255 operators, and its tokens have at most 64 parentheses open at any place, an aggregate's
/// among them.
pub fn whole_limits()
    ensures operators { (s : Scope) (x : Whole) (ts : Tokens) → expr.whole s x ts → operators (tree_of x.expr) ≤ 255 }
    ensures nesting { (s : Scope) (x : Whole) (ts : Tokens) → expr.whole s x ts → AtMostOpen 64 ts }
{}

//! The language of scripts as a type, by which laws that hold in any language are called.
ghost use Rattle.pg_ast.specs.declared.define.Define.{Define};
ghost use Rattle.pg_ast.specs.declared.pattern.Query.{Query};
ghost use Rattle.pg_meaning.specs.declared.checked.CheckedChange.{CheckedChange};
ghost use Rattle.pg_meaning.specs.declared.checked.CheckedQuery.{CheckedQuery};
ghost use Rattle.pg_rules.specs.Catalog.{Defined};
ghost use Rattle.pg_rules.specs.Changes.{Change};
ghost use Rattle.pg_language.specs.Language.{language};

use pg_session::Language;

/// The language of the statements that run.
pub struct Statements;

impl Language for Statements {
    ghost Catalog = { Defined };

    ghost Definition = { Define };

    ghost Change = { Change };

    ghost Query = { Query };

    ghost CheckedChange = { CheckedChange };

    ghost CheckedQuery = { CheckedQuery };

    ghost judges = { language };
}

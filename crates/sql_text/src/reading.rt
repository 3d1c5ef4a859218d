//! Reading a statement.

ghost use Rattle.sql_text.specs.Answers.{Gives};
ghost use Rattle.sql_text.specs.Grammar.{statement_of, whole_form};

use crate::fault::SqlFault;
use crate::lexer::tokens;
use crate::parser::Parser;
use crate::stmt::Stmt;
use std::alloc::Global;

/// The statement that all these tokens spell, of a text of this length.
fn whole(mut p: Parser<'_>) -> Result<Stmt, SqlFault>
    ensures { Gives result (whole_form p.entry) }
{
    let stmt = p.statement()?;
    p.finish()?;
    Ok(stmt)
}

/// Reads one statement, behind which one `;` may stand. The whole text is cut into tokens first.
#[tactic(auto, unfolding(crate::specs::Grammar::statement_of))]
pub fn read_sql(alloc: Global, t: &str) -> Result<Stmt, SqlFault>
    ensures { Gives result (statement_of t.now) }
{
    let tokens = tokens(alloc, t)?;
    whole(Parser::new(alloc, tokens.as_slice(), t.len()))
}

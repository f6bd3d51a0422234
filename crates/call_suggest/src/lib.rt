// The call that suggests a choice on a stored hall.
#![tactic(auto)]

ghost use Rattle.std.specs.Prelude.{◌≡◌};
ghost use Rattle.semantics.specs.Definitions.Suggestion.{suggest_call};
ghost use Rattle.semantics.specs.Promises.{Promised, OnSuggestions};
ghost use Rattle.answers.specs.Answers.{suggest_answer_of};

use answers::{Entry, Refusal};
use hall_layout::Index;
use table_terms::DECODED;

// Suggests the first choice that is accepted: at the lowest position, there at the lowest node; none where none is.
pub fn suggest(table: &[u8], hall: &[u8]) -> Result<Option<Entry>, Refusal>
    ensures result_value { suggest_answer_of result ≡ suggest_call table.now hall.now }
    ensures promised { Promised OnSuggestions }
{
    let mut decoded = [0u8; DECODED];
    let mut index = Index::new();
    call_admit::admit(table, hall, &mut decoded, &mut index)?;
    Ok(choice_suggest::first_accepted(&decoded, hall, &index))
}

// Publishing: the index of nobody, and what publish makes of an index by a rule.
#![tactic(auto)]

ghost use Rattle.std.specs.Prelude.{◌≡◌, []};
ghost use Rattle.refusal.specs.Numbers.{number_in};
ghost use Rattle.standing.specs.Standing.{Wf, list_of};
ghost use Rattle.model.specs.Publishing.{published_of};
ghost use Rattle.published_index.specs.Index.{index_of, rule_refusal, index_by};

use refusal::Refusal;
use stabbing::INDEX;
use standing::Standing;

// The index of nobody: nothing is published in it.
pub fn fresh(index: &mut [u16; INDEX])
    ensures { index.new ≡ index_of [] }
{
    let none = [0u16; 1024];
    stabbing_index::build(&none, &none, &none, 0, index);
}

// The index of the standing list with a rule's days, in the order of the answers.
fn lay(standing: Standing, rule: u16, index: &mut [u16; INDEX])
    requires { Wf standing }
    ensures { index.new ≡ index_of (published_of rule (list_of standing)) }
{
    let mut number = [0u16; 1024];
    let mut candidate = [0u16; 1024];
    let mut first = [0u16; 1024];
    let mut last = [0u16; 1024];
    let n = standing::columns(
        standing,
        rule,
        &mut number,
        &mut candidate,
        &mut first,
        &mut last,
    );
    publishing::lay(&number, &candidate, &first, &last, n, index);
}

// The index becomes that of the standing list with the rule's days, whatever it held before; where there is no such rule it stays as it
// was. Refusal: 14.
pub fn publish(standing: Standing, rule: u16, index: &mut [u16; INDEX]) -> Result<(), Refusal>
    requires { Wf standing }
    ensures value { number_in result ≡ rule_refusal rule }
    ensures index_after { index.new ≡ index_by rule (list_of standing) index.old }
{
    if !rules::is_rule(rule) {
        return Err(Refusal::NoSuchRule);
    }
    lay(standing, rule, index);
    Ok(())
}

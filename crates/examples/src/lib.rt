// The worked examples of the documents, computed on the definitions that the contracts cite.
#![tactic(auto)]

ghost use Rattle.examples.specs.Table.{Table};

// They hold for values of any type.
pub fn worked_examples<V>()
    ensures { (a b c p q r : V) → Table a b c p q r }
{}

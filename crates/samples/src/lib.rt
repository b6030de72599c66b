// Worked cases and examples of every layer.
#![tactic(auto)]

ghost use Rattle.samples.specs.Cases.{Cases};

#[cfg(test)]
mod draws;
#[cfg(test)]
mod fetches;
#[cfg(test)]
mod links;
#[cfg(test)]
mod orders;
#[cfg(test)]
mod ratings;
#[cfg(test)]
mod table_calls;

// The worked cases of the rules hold of the definitions.
pub fn cases_stand()
    ensures { Cases }
{}

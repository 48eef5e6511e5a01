// The writer of IDENTIFY DEVICE's page at its bounds: what fits, what is refused, and that nothing else is written.
#![tactic(auto)]

#[cfg(test)]
mod bounds;

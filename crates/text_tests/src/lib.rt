// Examples of chart texts, with answers worked out by hand. They stand in a crate of their own since tests are proved too.
#![tactic(auto)]

#[cfg(test)]
mod altered;
#[cfg(test)]
mod contents;
#[cfg(test)]
mod forms;
#[cfg(test)]
mod ranges;

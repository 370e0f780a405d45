// Trials of records and of the law of readings.

#![tactic(auto)]

#[cfg(test)]
mod laws_of_readings;
#[cfg(test)]
mod reading;
#[cfg(test)]
mod shared;
#[cfg(test)]
mod worth;
#[cfg(test)]
mod writing;

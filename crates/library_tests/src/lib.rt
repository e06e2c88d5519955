// Examples of the library's use, as tests: each is proved safe, and then run.
#![tactic(auto)]

#[cfg(test)]
mod gateways;
#[cfg(test)]
mod hand_over;
#[cfg(test)]
mod islands;
#[cfg(test)]
mod refusals;
#[cfg(test)]
mod replay_lines;
#[cfg(test)]
mod reports;
#[cfg(test)]
mod ricart_agrawala_runs;
#[cfg(test)]
mod rolls;
#[cfg(test)]
mod sizes;
#[cfg(test)]
mod suzuki_kasami_runs;
#[cfg(test)]
mod tables;
#[cfg(test)]
mod ties;
#[cfg(test)]
mod wait_lists;
#[cfg(test)]
mod words;

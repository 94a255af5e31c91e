//! Tests of the tables on their public calls: the map, the lines, the victims, the window, the pool, and the
//! placer beside the plain one.
#![tactic(auto)]

#[cfg(test)]
mod line;
#[cfg(test)]
mod map;
#[cfg(test)]
mod placer;
#[cfg(test)]
mod pool;
#[cfg(test)]
mod victim;
#[cfg(test)]
mod window;

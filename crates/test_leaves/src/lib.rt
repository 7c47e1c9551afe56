//! Tests of the data structures below the caches: keys and items, counter text, the sketch, the
//! linked lists, the index, the expiry wheel and the ring of waiting look-ups.
#![tactic(auto)]

#[cfg(test)]
mod counter;
#[cfg(test)]
mod index;
#[cfg(test)]
mod item;
#[cfg(test)]
mod readbuf;
#[cfg(test)]
mod sketch;
#[cfg(test)]
mod slru;
#[cfg(test)]
mod wheel;

// What can be told of a program's row without looking names up: its stage, its limits, that its names differ.
#![tactic(auto)]

mod differ;
pub mod entries;
pub mod head;
mod items;
pub mod nodes;
mod numbers;
mod stages;
mod totals;
mod whole;

pub use differ::{files_once, names_once};
pub use entries::past_file;
pub use items::{MOST_ARRAYS, MOST_OWN, MOST_PARAMS, MOST_VARS, item_fits};
pub use stages::stage;
pub use totals::{MOST_ELEMENTS, elements_of_item, totals_fit};
pub use whole::{checks_split, fits};

#[cfg(test)]
mod tests {
    use super::*;

    // fn main() { }  in a file named a
    const MAIN: [u32; 15] = [1, 1, 97, 1, 4, 9, 4, 109, 97, 105, 110, 0, 0, 0, 25];

    // var x;  and an array of n words with another name or the same, in a file named a; n by its two digits
    fn two_items(low: u32, high: u32, name: u32) -> [u32; 15] {
        [1, 1, 97, 2, 0, 2, 1, 120, 1, 5, 1, name, 1, low, high]
    }

    #[test]
    fn tells_stages(rt: HostRuntime) {
        assert!(rt; stage(&MAIN) == 0);
        assert!(rt; stage(&two_items(5, 0, 121)) == 1);
    }

    #[test]
    fn tells_limits(rt: HostRuntime) {
        assert!(rt; fits(&MAIN));
        assert!(rt; fits(&two_items(65536, 0, 121)));
        assert!(rt; !fits(&two_items(65536, 0, 120)));
        assert!(rt; !fits(&two_items(65537, 0, 121)));
        assert!(rt; !fits(&two_items(1, 1, 121)));
    }
}

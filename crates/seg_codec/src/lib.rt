//! Merge records as bytes, and back: the nodes that a file of segments has, and trees of them.
#![tactic(auto)]

mod directories;
mod ids;
mod lacking;
mod laws;
mod leaves;
mod nodes;
mod records;
mod room;
mod roots;
mod wanted;
mod written;

pub use ids::Ids;
pub use laws::{
    a_record_has_what_the_file_lacks, nodes_make_one_tree, trees_are_the_kept_root,
    trees_stand_over_later_nodes,
};
pub use nodes::Nodes;
pub use records::{is_bad_front, record_of};
pub use roots::RootIds;
pub use wanted::Wanted;
pub use written::record_bytes;

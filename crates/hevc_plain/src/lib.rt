// Plain cameras (request (xi)): what a block that uses none of the range extensions is, and what is shown of it. Crate hevc_plain_coding reads and writes such blocks.
#![tactic(auto)]

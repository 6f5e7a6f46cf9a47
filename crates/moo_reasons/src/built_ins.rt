//! The built-in functions of LambdaMOO that aren't calls of this server.

/// The names of the functions, a space between two. docs/LAMBDAMOO.md says of each why it isn't here.
const NAMES: &str =
    "pass typeof tostr toliteral toint tonum toobj tofloat equal value_bytes value_hash random min max abs floatstr sqrt \
sin cos tan asin acos atan sinh cosh tanh exp log log10 ceil floor trunc length strsub index rindex strcmp decode_binary encode_binary \
match rmatch substitute crypt string_hash binary_hash is_member listinsert listappend listdelete listset setadd setremove object_bytes \
verb_code set_verb_code disassemble connected_players connected_seconds idle_seconds notify buffered_output_length read force_input \
flush_input output_delimiters boot_player connection_name set_connection_option connection_options connection_option \
open_network_connection listen unlisten listeners time ctime raise call_function function_info eval set_task_perms caller_perms \
ticks_left seconds_left task_id suspend resume queue_info queued_tasks kill_task callers task_stack server_version server_log renumber \
reset_max_object memory_usage shutdown dump_database db_disk_size load_server_options";

/// Whether a word is the name of a built-in function of LambdaMOO that isn't a call of this server, in any case of letters.
pub(crate) fn is_built_in(word: &[u8]) -> bool {
    NAMES
        .split(' ')
        .any(|name| name.as_bytes().eq_ignore_ascii_case(word))
}

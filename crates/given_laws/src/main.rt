//! Calls laws that no other code calls, each once. A law is the contract of a function that does nothing: where it is called
//! its clauses are known.
#![tactic(auto)]

fn main(rt: HostRuntime) {
    let _host = rt;
    words_and_trees();
    rules();
    parts_of_trees();
    graphs();
    nets();
    cycles();
    workers();
    saved_states();
    circuits();
    helpers();
    calls();
}

/// Laws of texts, trees and their meaning.
fn words_and_trees() {
    el_base::written_numbers_read_back();
    el_base::canonical_numbers_are_as_written();
    c_ast::expressions_count_their_parts();
    c_ast::statements_count_their_parts();
    c_ast::typed_expressions_count_their_parts();
    c_ast::typed_statements_count_their_parts();
    c_parse::tokens_have_one_tree();
    c_types::trees_are_checked_as_programs();
    word_ops::laws::operations_have_laws();
    word_ops::laws::operands_are_reduced();
    word_ops::laws::divisions_are_total();
    c_meaning::laws::larger_bounds_keep_costs();
    c_meaning::laws::normal_statements_run_their_parts();
    c_meaning::profile_laws::wrapping_keeps_ends();
    c_meaning::profile_laws::wrapped_results_are_congruent();
    c_meaning::profile_laws::first_is_where_it_ends_undefined();
    c_meaning::read_laws::expressions_read_their_variables();
    c_meaning::size_laws::variables_are_few();
    c_meaning::worked_laws::operations_are_ordered();
    c_meaning::worked_laws::turns_are_worked();
    c_meaning::worked_laws::results_are_converted();
    c_meaning::worked_laws::counts_are_worked();
    c_meaning::worked_laws::unlawful_trees_are_refused();
}

/// Rules by which operations are replaced by others.
fn rules() {
    word_rules::amounts::least_amounts_serve();
    word_rules::amounts::quotients_are_made();
    word_rules::bounds::results_are_bounded();
    word_rules::bounds::bounds_are_patterns();
    word_rules::existence::reciprocals_are_close();
    word_rules::existence::digits_are_counted();
    word_rules::existence::long_magic_exists();
    word_rules::existence::signed_magic_exists();
    word_rules::quotients::products_are_quotients();
    word_rules::quotients::unsigned_powers_are_shifts();
    word_rules::quotients::unsigned_quotients_are_products();
    word_rules::quotients::signed_quotients_are_products();
    word_rules::quotients::signed_powers_are_shifts();
    word_rules::quotients::divisions_without_sign_are_unsigned();
    word_rules::quotients::remainders_are_differences();
    word_rules::worked::divisors_are_worked();
    word_rules::worked::bounds_are_worked();
}

/// Laws of the parts of trees.
fn parts_of_trees() {
    c_meaning::part_laws::lawful_normal_statements_have_lawful_parts();
    c_meaning::part_laws::reads_are_those_of_parts();
    c_meaning::part_laws::reads_stand_outside_of_sides();
    c_meaning::part_laws::returns_are_those_of_parts();
    c_meaning::part_laws::variables_are_those_of_parts();
    c_meaning::part_laws::normal_variables_are_those_of_parts();
    c_meaning::part_laws::prices_are_those_of_parts();
    c_meaning::part_laws::counts_are_those_of_parts();
    c_meaning::part_laws::sizes_are_those_of_parts();
    c_meaning::part_laws::readings_are_those_of_parts();
}

/// Laws of block graphs.
fn graphs() {
    ir::renamed_steps_do_the_same();
    ir::renamed_steps_fit();
    ir::graphs_are_strict();
    ir::samples_run();
    block_trim::trimmed_graphs_fit();
    block_args::served_graphs_run_the_same();
    block_args::live_variables_serve();
    block_args::sizes_are_kept();
    block_args::served_graphs_are_well_formed();
    block_merge::merged_graphs_keep();
    block_pass::blocks_go_on();
    block_pass::block_by_block();
    block_prune::sample_is_pruned();
    block_rules::values_are_bounded();
    block_select::samples_are_selected();
}

/// Laws of nets, queues and runs.
fn nets() {
    net_types::firings_are_ordered();
    net_text::net_texts_have_one_answer();
    net_check::cycles_are_endless_walks();
    lsq_core::acts_stay_refused();
    lsq_core::mark_allows_more();
    lsq_core::rows_hold();
    net_core::one_token();
    net_core::either_order();
    net_core::settled();
    net_core::rows_use_only();
    net_core::laws_need_rules();
    net_core::worked_nets_run();
    net_core::plans_use();
    net_replay::one_answer();
    net_replay::one_end();
    net_replay::one_schedule();
}

/// Laws of cycles.
fn cycles() {
    cycle_engine::firings_rouse();
    cycle_engine::firings_rouse_their_unit();
    cycle_engine::next_cycles_rouse();
    cycle_engine::cycles_are_few();
    cycle_engine::cycles_are_one();
    cycle_engine::worked_net_cycles();
}

/// Laws of workers and crews.
fn workers() {
    net_worker::merged_logs_run();
    net_worker::workers_agree();
    net_worker::merged_ascends();
    net_worker::merged_merges();
    net_worker::rest_is_shared();
    net_worker::workers_gather();
    net_worker::one_entry_more();
    net_worker::one_take_more();
    net_worker::one_credit_more();
    net_worker::more_handed_out();
    net_worker::local_fires();
    net_worker::local_looks();
    net_worker::sees_fires();
    net_worker::made_looks();
    net_worker::worker_may();
    net_worker::made_fires();
    net_worker::made_keeps();
    net_worker::idle_rests();
    net_worker::made_holds();
    worker_run::crew_gathers();
}

/// Laws of saved states.
fn saved_states() {
    snapshot::opening_fits();
    snapshot::fits_stay();
}

/// Laws of programs with helpers.
fn helpers() {
    c_calls::laws::calls_are_worked();
    c_calls::laws::programs_are_lawful();
    c_calls::laws::calls_are_inlined();
    c_calls::laws::programs_are_typed_in_one_way();
    c_calls::laws::typed_programs_are_lawful();
    c_calls::laws::inlined_is_lawful();
    c_calls::laws::inlined_nodes_are_counted();
}

/// Laws of circuits.
fn circuits() {
    circuit_build::circuits_follow();
    circuit_build::nets_are_plain();
    circuit_build::units_have_their_shape();
    circuit_build::units_stand_once();
    circuit_build::nets_are_small();
    circuit_build::units_are_shaped();
    circuit_build::headers_are_met();
    circuit_build::arrays_are_served();
    circuit_build::ports_agree();
    circuit_build::nets_keep_rules();
    kernel_compile::circuits_come_to_rest();
    kernel_compile::circuits_are_within_depth();
    buffer_place::cycles_have_registers();
    buffer_place::registers_are_needed();
}

/// Laws of calls.
fn calls() {
    net_runs::told_schedules_replay();
    kernel_front::kernels_end_as_programs();
    kernel_front::places_count_lines_and_columns();
    kernel_front::texts_without_helpers_are_cast();
    kernel_ref::ending_kernels_are_not_refused();
    kernel_runs::circuits_show_what_is_interpreted();
    elastic_top::calls_print_once();
    elastic_top::printed_circuits_show_the_end();
    elastic_top::sound_runs_are_answered();
    elastic_top::typed_texts_are_answered();
    elastic_top::interpreted_kernels_are_run();
    elastic_top::ref_and_go_show_one_end();
    elastic_top::resumed_calls_print_as_runs();
    elastic_top::long_files_are_one();
    elastic_top::benches_refuse_nothing();
}

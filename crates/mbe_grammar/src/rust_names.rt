//! The names of Rust's grammar, in the order of the table. `checks/lay_out_grammar.py` makes this file.

/// Where `expression` is laid out.
pub const EXPRESSION: usize = 531;

/// Where `expression_2021_fragment` is laid out.
pub const EXPRESSION_2021_FRAGMENT: usize = 527;

/// Where `type` is laid out.
pub const TYPE: usize = 132;

/// Where `pattern_fragment` is laid out.
pub const PATTERN_FRAGMENT: usize = 362;

/// Where `pattern_param_fragment` is laid out.
pub const PATTERN_PARAM_FRAGMENT: usize = 367;

/// Where `type_path` is laid out.
pub const TYPE_PATH: usize = 0;

/// Where `statement` is laid out.
pub const STATEMENT: usize = 997;

/// Where `item` is laid out.
pub const ITEM: usize = 1030;

/// Where `meta` is laid out.
pub const META: usize = 962;

/// Where `items` is laid out.
pub const ITEMS: usize = 1027;

/// Where `statements` is laid out.
pub const STATEMENTS: usize = 987;

/// Where `identifier_pattern` is laid out.
pub const IDENTIFIER_PATTERN: usize = 504;

/// Where `field_pattern` is laid out.
pub const FIELD_PATTERN: usize = 490;

/// Where `label` is laid out.
pub const LABEL: usize = 827;

/// Where `macro_rules_item` is laid out.
pub const MACRO_RULES_ITEM: usize = 1063;

/// Where `loose_macro_rules_item` is laid out.
pub const LOOSE_MACRO_RULES_ITEM: usize = 1367;

/// Where `tokens` is laid out.
pub const TOKENS: usize = 1354;

/// Each name with the index of its rule in the table, in the order of the indices.
pub static NAMES: [(usize, &str); 168] = [
    (0, "type_path"),
    (5, "type_path_segments"),
    (7, "more_type_path_segments"),
    (17, "type_path_segment"),
    (31, "inputs"),
    (34, "less"),
    (44, "generic_arguments"),
    (55, "generic_argument"),
    (76, "generic_argument_end"),
    (78, "generic_argument_value"),
    (81, "const_argument"),
    (95, "qualified_self"),
    (103, "expression_path"),
    (107, "expression_path_segments"),
    (113, "expression_path_segment"),
    (119, "simple_path"),
    (124, "any_type"),
    (132, "type"),
    (164, "behind_type_path"),
    (172, "type_no_bounds"),
    (194, "types"),
    (200, "more_bounds"),
    (206, "bare_bound"),
    (214, "modified_path"),
    (223, "plain_type"),
    (233, "pointer_type"),
    (238, "array_type"),
    (243, "reference_type"),
    (250, "binder_type"),
    (254, "function_type"),
    (268, "generator_type"),
    (272, "maybe_named_parameters"),
    (280, "maybe_named_parameter"),
    (299, "bounds"),
    (301, "some_bounds"),
    (303, "bound"),
    (308, "trait_bound"),
    (321, "use_bound"),
    (331, "maybe_const"),
    (332, "begins_bound"),
    (349, "for_lifetimes"),
    (351, "lifetime_parameter"),
    (358, "use_argument"),
    (362, "pattern_fragment"),
    (367, "pattern_param_fragment"),
    (369, "pattern"),
    (385, "pattern_no_top_alt"),
    (419, "pattern_without_range"),
    (455, "patterns"),
    (462, "range_tail"),
    (466, "old_range_tail"),
    (468, "range_operator"),
    (471, "range_end"),
    (475, "fields"),
    (478, "struct_pattern_elements"),
    (484, "struct_pattern_field"),
    (490, "field_pattern"),
    (500, "field_name"),
    (501, "reference_pattern"),
    (504, "identifier_pattern"),
    (525, "binding"),
    (527, "expression_2021_fragment"),
    (531, "expression"),
    (534, "expression_before_block"),
    (537, "behind_operation"),
    (545, "behind_operation_before_block"),
    (551, "range"),
    (562, "range_before_block"),
    (575, "operation"),
    (587, "operation_before_block"),
    (594, "operand"),
    (597, "operand_before_block"),
    (600, "unary"),
    (614, "unary_before_block"),
    (624, "unary_operator"),
    (633, "postfix"),
    (661, "bad_postfix"),
    (663, "closure"),
    (671, "closure_before_block"),
    (675, "closure_head"),
    (700, "closure_parameter"),
    (705, "jump"),
    (721, "jump_before_block"),
    (731, "primary"),
    (743, "primary_before_block"),
    (751, "variable"),
    (756, "variable_before_block"),
    (760, "expressions"),
    (763, "some_expressions"),
    (766, "array_elements"),
    (772, "struct_expression_fields"),
    (779, "struct_expression_field"),
    (784, "field_value"),
    (785, "basic"),
    (795, "block_like"),
    (827, "label"),
    (829, "loop"),
    (844, "conditions"),
    (866, "let_chain"),
    (873, "let_condition"),
    (877, "let_value"),
    (888, "match_arms"),
    (892, "match_arm"),
    (900, "arm_body"),
    (906, "guard"),
    (925, "guard_chain"),
    (931, "guard_condition"),
    (935, "guard_value"),
    (943, "expression_with_block"),
    (951, "lazy_operator"),
    (953, "begins"),
    (955, "inner_attribute"),
    (960, "attribute"),
    (962, "meta"),
    (966, "plain_meta"),
    (971, "visibility"),
    (977, "visibility_place"),
    (985, "block"),
    (987, "statements"),
    (997, "statement"),
    (1003, "let_statement"),
    (1015, "closed_statement"),
    (1027, "items"),
    (1030, "item"),
    (1037, "declaration"),
    (1044, "item_kind"),
    (1058, "macro_item"),
    (1063, "macro_rules_item"),
    (1065, "macro_rules"),
    (1070, "macro_definition"),
    (1076, "use_declaration"),
    (1079, "use_trees"),
    (1082, "use_tree"),
    (1093, "extern_crate"),
    (1100, "rename"),
    (1103, "static_item"),
    (1114, "constant_item"),
    (1127, "function"),
    (1139, "function_parameters"),
    (1143, "self_parameter"),
    (1151, "function_parameter"),
    (1157, "function_qualifiers"),
    (1163, "module_item"),
    (1170, "extern_block"),
    (1175, "external_items"),
    (1178, "external_item"),
    (1184, "type_alias"),
    (1195, "structure"),
    (1206, "struct_fields"),
    (1209, "struct_field"),
    (1216, "tuple_fields"),
    (1219, "tuple_field"),
    (1234, "types_behind_pub"),
    (1240, "enumeration"),
    (1247, "enum_variants"),
    (1250, "enum_variant"),
    (1257, "union"),
    (1263, "trait"),
    (1279, "implementation"),
    (1286, "trait_implementation"),
    (1299, "associated_items"),
    (1302, "associated_item"),
    (1310, "generic_parameters"),
    (1318, "generic_parameter"),
    (1333, "where_clause"),
    (1345, "where_predicate"),
    (1354, "tokens"),
    (1367, "loose_macro_rules_item"),
];

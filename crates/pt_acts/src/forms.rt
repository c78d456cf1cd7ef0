//! The acts of each form of the language, as equations: a row has a kind and a line.

ghost use Rattle.std.specs.Prelude.{◌≡◌, [], ◌∷◌, Some, None};
ghost use Rattle.pt_base.specs.declared.operators.BinOp.TheVariants.{Add};
ghost use Rattle.pt_base.specs.declared.operators.CompareOp.TheVariants.{Less};
ghost use Rattle.pt_base.specs.declared.operators.UnOp.TheVariants.{Minus};
ghost use Rattle.pt_tree.specs.declared.act.ActKind.TheVariants as A;
ghost use Rattle.pt_tree.specs.declared.expression.Constant.TheVariants as constant;
ghost use Rattle.pt_tree.specs.Acts.{acts_exp, acts_target, acts_stm, acts_stms};
ghost use Rattle.pt_tree.specs.Blocks.{acts_of_code, function_body, of_lambda, of_generator, blocks_exp, blocks_stm, blocks_script};
ghost use Rattle.pt_tree.specs.Syntax as S;
ghost use Rattle.pt_acts.specs.Forms.{row, again, e, f, in_item, first_lines, two, p, t, defaulted, imports, documented};

/// Expressions (Language Reference 6).
pub fn each_expression_has_its_acts()
    ensures of_constant { acts_exp (S.constant 1 constant.None) ≡ row A.Const 1 ∷ [] }
    ensures of_name { acts_exp (S.name 1 []) ≡ row A.Load 1 ∷ [] }
    ensures joined { acts_exp (S.joined 1 (S.literal 2 [] (S.field 3 (e 4) None (S.literal 5 [] (S.field 6 (e 7) None S.no_pieces S.no_pieces)) (S.field 8 (e 9) None (S.literal 10 [] S.no_pieces) S.no_pieces)))) ≡ row A.Const 2 ∷ row A.Load 4 ∷ row A.Const 5 ∷ row A.Load 7 ∷ row A.Format 6 ∷ row A.Join 3 ∷ row A.Format 3 ∷ row A.Load 9 ∷ row A.Const 10 ∷ row A.Format 8 ∷ row A.Join 1 ∷ [] }
    ensures tuple { acts_exp (S.tuple 1 (two (e 2) (e 3))) ≡ row A.Load 2 ∷ row A.Load 3 ∷ row A.Build 1 ∷ [] }
    ensures list { acts_exp (S.list 1 (two (e 2) (e 3))) ≡ row A.Load 2 ∷ row A.Load 3 ∷ row A.Build 1 ∷ [] }
    ensures set { acts_exp (S.set 1 (two (e 2) (e 3))) ≡ row A.Load 2 ∷ row A.Load 3 ∷ row A.Build 1 ∷ [] }
    ensures dict { acts_exp (S.dict 1 (S.entry (e 2) (e 3) S.no_entries)) ≡ row A.Load 2 ∷ row A.Load 3 ∷ row A.Build 1 ∷ [] }
    ensures attribute { acts_exp (S.attribute 1 (e 2) []) ≡ row A.Load 2 ∷ row A.Attr 1 ∷ [] }
    ensures item { acts_exp (S.item 1 (e 2) (e 3)) ≡ row A.Load 2 ∷ row A.Load 3 ∷ row A.Item 1 ∷ [] }
    ensures slice { acts_exp (S.slice 1 (S.given (e 2)) S.absent (S.given (e 3))) ≡ row A.Load 2 ∷ row A.Load 3 ∷ row A.Slice 1 ∷ [] }
    ensures unary { acts_exp (S.unary 1 Minus (e 2)) ≡ row A.Load 2 ∷ row A.Unary 1 ∷ [] }
    ensures not_of { acts_exp (S.not_of 1 (e 2)) ≡ row A.Load 2 ∷ row A.Not 1 ∷ [] }
    ensures binary { acts_exp (S.binary 1 Add (e 2) (e 3)) ≡ row A.Load 2 ∷ row A.Load 3 ∷ row A.Binary 1 ∷ [] }
    ensures compare { acts_exp (S.compare 1 (e 2) Less (e 3) (S.link Less (e 4) S.no_links)) ≡ row A.Load 2 ∷ row A.Load 3 ∷ row A.Compare 1 ∷ row A.Branch 1 ∷ row A.Load 4 ∷ row A.Compare 1 ∷ [] }
    ensures of_and { acts_exp (S.and 1 (e 2) (two (e 3) (e 4))) ≡ row A.Load 2 ∷ row A.Branch 1 ∷ row A.Load 3 ∷ row A.Branch 1 ∷ row A.Load 4 ∷ [] }
    ensures of_or { acts_exp (S.or 1 (e 2) (two (e 3) (e 4))) ≡ row A.Load 2 ∷ row A.Branch 1 ∷ row A.Load 3 ∷ row A.Branch 1 ∷ row A.Load 4 ∷ [] }
    ensures conditional { acts_exp (S.conditional 1 (e 2) (e 3) (e 4)) ≡ row A.Load 2 ∷ row A.Branch 1 ∷ row A.Load 3 ∷ row A.Load 4 ∷ [] }
    ensures call { acts_exp (S.call 1 (e 2) (S.positional (e 3) (S.named [] (e 4) (S.spread (e 5) (S.spread_named (e 6) S.no_args))))) ≡ row A.Load 2 ∷ row A.Load 3 ∷ row A.Load 4 ∷ row A.Load 5 ∷ row A.Spread 1 ∷ row A.Load 6 ∷ row A.Spread 1 ∷ row A.Call 1 ∷ [] }
    ensures of_lambda { acts_exp (S.lambda 1 0 (S.parameters (defaulted (e 2)) None (defaulted (e 3)) None) (e 4)) ≡ row A.Load 2 ∷ row A.Load 3 ∷ row A.Function 1 ∷ [] }
    ensures comprehension { acts_exp (S.comprehension 1 (S.a_dict (e 2) (e 3)) 4 (t 5) (e 6) (S.only_if (e 7) (S.for_each 8 (t 9) (e 10) S.no_clauses))) ≡ row A.Load 6 ∷ row A.Iter 4 ∷ row A.Build 1 ∷ row A.Next 4 ∷ row A.Store 5 ∷ row A.Load 7 ∷ row A.Branch 1 ∷ row A.Load 10 ∷ row A.Iter 8 ∷ row A.Next 8 ∷ row A.Store 9 ∷ row A.Load 2 ∷ row A.Load 3 ∷ row A.Add 1 ∷ [] }
    ensures of_generator { acts_exp (S.generator 1 0 (e 2) 3 (t 4) (e 5) S.no_clauses) ≡ row A.Load 5 ∷ row A.Iter 3 ∷ row A.Generator 1 ∷ [] }
    ensures of_yield { acts_exp (S.yield 1 (S.given (e 2))) ≡ row A.Load 2 ∷ row A.Yield 1 ∷ [] }
    ensures bare_yield { acts_exp (S.yield 1 S.absent) ≡ row A.Yield 1 ∷ [] }
    ensures yield_from { acts_exp (S.yield_from 1 (e 2)) ≡ row A.Load 2 ∷ row A.Iter 1 ∷ row A.Delegate 1 ∷ [] }
{}

/// Targets, and statements without a block of their own (Language Reference 7).
pub fn each_simple_statement_has_its_acts()
    ensures attribute { acts_target (S.single (S.attribute_at 1 (e 2) [])) ≡ row A.Load 2 ∷ row A.SetAttr 1 ∷ [] }
    ensures item { acts_target (S.single (S.item_at 1 (e 2) (e 3))) ≡ row A.Load 2 ∷ row A.Load 3 ∷ row A.SetItem 1 ∷ [] }
    ensures several { acts_target (S.several 1 S.as_list (S.more_targets (t 2) (S.more_targets (S.starred 3 (t 4)) S.no_targets))) ≡ row A.Unpack 1 ∷ row A.Store 2 ∷ row A.Store 4 ∷ [] }
    ensures expression { acts_stm (S.expr 1 (e 2)) ≡ row A.Load 2 ∷ row A.Discard 1 ∷ [] }
    ensures assignment { acts_stm (S.assign 1 (S.more_targets (t 2) (S.more_targets (t 3) S.no_targets)) (e 4)) ≡ row A.Load 4 ∷ row A.Store 2 ∷ row A.Store 3 ∷ [] }
    ensures changed_name { acts_stm (S.augmented 1 (S.name_at 2 []) Add (e 3)) ≡ row A.Load 2 ∷ row A.Load 3 ∷ row A.InPlace 1 ∷ row A.Store 2 ∷ [] }
    ensures changed_attribute { acts_stm (S.augmented 1 (S.attribute_at 2 (e 3) []) Add (e 4)) ≡ row A.Load 3 ∷ row A.Attr 2 ∷ row A.Load 4 ∷ row A.InPlace 1 ∷ row A.SetAttr 2 ∷ [] }
    ensures changed_item { acts_stm (S.augmented 1 (S.item_at 2 (e 3) (e 4)) Add (e 5)) ≡ row A.Load 3 ∷ row A.Load 4 ∷ row A.Item 2 ∷ row A.Load 5 ∷ row A.InPlace 1 ∷ row A.SetItem 2 ∷ [] }
    ensures annotated { acts_stm (S.annotated 1 (S.name_at 2 []) (e 3) (S.given (e 4))) ≡ row A.Load 4 ∷ row A.Store 2 ∷ [] }
    ensures without_value { acts_stm (S.annotated 1 (S.attribute_at 2 (e 3) []) (e 4) S.absent) ≡ row A.Pass 1 ∷ [] }
    ensures assertion { acts_stm (S.assert 1 (e 2) (S.given (e 3))) ≡ row A.Load 2 ∷ row A.Branch 1 ∷ row A.Load 3 ∷ row A.Raise 1 ∷ [] }
    ensures of_pass { acts_stm (S.pass 1) ≡ row A.Pass 1 ∷ [] }
    ensures of_del { acts_stm (S.del 1 (S.more_targets (t 2) (S.more_targets (S.several 3 S.as_tuple (S.more_targets (S.single (S.attribute_at 4 (e 5) [])) S.no_targets)) (S.more_targets (S.single (S.item_at 6 (e 7) (e 8))) S.no_targets)))) ≡ row A.Delete 2 ∷ row A.Load 5 ∷ row A.DelAttr 4 ∷ row A.Load 7 ∷ row A.Load 8 ∷ row A.DelItem 6 ∷ [] }
    ensures of_return { acts_stm (S.return 1 (S.given (e 2))) ≡ row A.Load 2 ∷ row A.Return 1 ∷ [] }
    ensures bare_return { acts_stm (S.return 1 S.absent) ≡ row A.Return 1 ∷ [] }
    ensures of_raise { acts_stm (S.raise 1 (e 2) (S.given (e 3))) ≡ row A.Load 2 ∷ row A.Load 3 ∷ row A.Raise 1 ∷ [] }
    ensures bare_raise { acts_stm (S.raise_again 1) ≡ row A.Raise 1 ∷ [] }
    ensures of_break { acts_stm (S.break 1) ≡ row A.Break 1 ∷ [] }
    ensures of_continue { acts_stm (S.continue 1) ≡ row A.Continue 1 ∷ [] }
    ensures of_import { acts_stm (S.import 1 imports) ≡ row A.Import 1 ∷ row A.Store 1 ∷ row A.Import 1 ∷ row A.Store 1 ∷ [] }
    ensures import_from { acts_stm (S.import_from 1 [] imports) ≡ row A.Import 1 ∷ row A.ImportName 1 ∷ row A.Store 1 ∷ row A.ImportName 1 ∷ row A.Store 1 ∷ [] }
    ensures of_global { acts_stm (S.global 1 ([] ∷ [])) ≡ [] }
    ensures of_nonlocal { acts_stm (S.nonlocal 1 ([] ∷ [])) ≡ [] }
{}

/// Compound statements, and the blocks of functions, lambdas and generator expressions
/// (Language Reference 8).
pub fn each_compound_statement_has_its_acts()
    ensures of_choice { acts_stm (S.choice 1 (S.branch 1 (e 2) (p 3) (S.branch 4 (e 5) (p 6) S.no_branches)) (p 7)) ≡ row A.Load 2 ∷ row A.Branch 1 ∷ row A.Pass 3 ∷ row A.Load 5 ∷ row A.Branch 4 ∷ row A.Pass 6 ∷ row A.Pass 7 ∷ [] }
    ensures of_while { acts_stm (S.while 1 (S.not_of 2 (e 3)) (p 4) (p 5)) ≡ again A.Load 3 ∷ row A.Not 2 ∷ row A.Branch 1 ∷ row A.Pass 4 ∷ row A.Pass 5 ∷ [] }
    ensures of_for { acts_stm (S.for 1 (t 2) (e 3) (p 4) (p 5)) ≡ row A.Load 3 ∷ row A.Iter 1 ∷ again A.Next 1 ∷ row A.Store 2 ∷ row A.Pass 4 ∷ row A.Pass 5 ∷ [] }
    ensures of_try { acts_stm (S.try 1 (p 2) (S.handler 3 (S.given (e 4)) (Some []) (p 5) (S.handler 6 S.absent None (p 7) S.no_handlers)) (p 8) (p 9)) ≡ row A.Try 1 ∷ row A.Pass 2 ∷ row A.Load 4 ∷ row A.Match 3 ∷ row A.Store 3 ∷ row A.Pass 5 ∷ row A.Match 6 ∷ row A.Pass 7 ∷ row A.Pass 8 ∷ row A.Pass 9 ∷ [] }
    ensures of_with { acts_stm (S.with 1 (S.with_item 2 (e 3) (Some (t 4)) (S.with_item 5 (e 6) None S.no_items)) (p 7)) ≡ row A.Load 3 ∷ row A.Enter 2 ∷ row A.Store 4 ∷ row A.Load 6 ∷ row A.Enter 5 ∷ row A.Pass 7 ∷ row A.Exit 5 ∷ row A.Exit 2 ∷ [] }
    ensures of_def { acts_stm (S.def 1 (S.decorator 1 (e 2) (S.decorator 3 (e 4) S.no_decorators)) 5 0 [] (S.parameters (defaulted (e 6)) None (defaulted (e 7)) None) S.absent (p 8)) ≡ row A.Load 2 ∷ row A.Load 4 ∷ row A.Load 6 ∷ row A.Load 7 ∷ row A.Function 5 ∷ row A.Call 3 ∷ row A.Call 1 ∷ row A.Store 5 ∷ [] }
    ensures of_class { acts_stm (S.class 1 (S.decorator 1 (e 2) S.no_decorators) 3 0 [] (S.given (e 4)) (p 5)) ≡ row A.Load 2 ∷ row A.Load 4 ∷ row A.Class 3 ∷ row A.Call 1 ∷ row A.Store 3 ∷ [] }
    ensures docstring { acts_stms (function_body documented) ≡ row A.Pass 2 ∷ [] }
    ensures module_text { acts_stms documented ≡ row A.Const 1 ∷ row A.Discard 1 ∷ row A.Pass 2 ∷ [] }
    ensures lambda_block { acts_of_code (of_lambda 1 (S.not_of 2 (e 3))) ≡ row A.Load 3 ∷ row A.Not 2 ∷ row A.Return 1 ∷ [] }
    ensures generator_block { acts_of_code (of_generator 1 (e 2) 3 (t 4) (S.only_if (e 5) S.no_clauses)) ≡ row A.Next 3 ∷ row A.Store 4 ∷ row A.Load 5 ∷ row A.Branch 1 ∷ row A.Load 2 ∷ row A.Yield 1 ∷ row A.Discard 1 ∷ [] }
{}

/// The blocks of a part, told by their first lines (Language Reference 4.1): an outer block stands
/// before an inner one, and annotations have none.
pub fn blocks_stand_in_source_order()
    ensures conditional { first_lines (blocks_exp (S.conditional 1 (f 2) (f 3) (f 4))) ≡ 3 ∷ 2 ∷ 4 ∷ [] }
    ensures comprehension { first_lines (blocks_exp (S.comprehension 1 (S.a_list (f 2)) 3 (in_item 3 4) (f 5) (S.only_if (f 6) S.no_clauses))) ≡ 2 ∷ 3 ∷ 4 ∷ 5 ∷ 6 ∷ [] }
    ensures of_generator { first_lines (blocks_exp (S.generator 1 0 (f 2) 3 (in_item 3 4) (f 5) S.no_clauses)) ≡ 1 ∷ 2 ∷ 3 ∷ 4 ∷ 5 ∷ [] }
    ensures assignment { first_lines (blocks_stm (S.assign 1 (S.more_targets (in_item 2 3) S.no_targets) (f 4))) ≡ 2 ∷ 3 ∷ 4 ∷ [] }
    ensures annotated { first_lines (blocks_stm (S.annotated 1 (S.name_at 2 []) (f 3) (S.given (f 4)))) ≡ 4 ∷ [] }
    ensures of_loop { first_lines (blocks_stm (S.for 1 (in_item 2 3) (f 4) S.none S.none)) ≡ 2 ∷ 3 ∷ 4 ∷ [] }
    ensures of_def { first_lines (blocks_stm (S.def 1 (S.decorator 1 (f 2) S.no_decorators) 3 0 [] (S.parameters (defaulted (f 4)) None S.no_formals None) (S.given (f 5)) (S.more (S.expr 6 (f 6)) S.none))) ≡ 2 ∷ 1 ∷ 4 ∷ 6 ∷ [] }
    ensures of_class { first_lines (blocks_stm (S.class 1 S.no_decorators 1 0 [] (S.given (f 2)) (S.more (S.expr 3 (f 3)) S.none))) ≡ 1 ∷ 2 ∷ 3 ∷ [] }
    ensures whole { first_lines (blocks_script (S.more (S.expr 2 (f 3)) S.none)) ≡ 1 ∷ 3 ∷ [] }
{}

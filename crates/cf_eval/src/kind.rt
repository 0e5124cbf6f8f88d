// What a form of code gives, where the form alone tells it.
ghost use Rattle.std.specs.Prelude.{◌≡◌};
ghost use Rattle.cf_tree.specs.CodeView.{code_tree};
ghost use Rattle.cf_eval.specs.Forms.{kind_of_tree};

use cf_tree::Code;

// A number, a truth value or a set, whatever its parts give; or what the parts or the values decide.
#[derive(Clone, Copy)]
pub enum Kind {
    Number,
    Truth,
    Elements,
    Other,
}

pub fn kind_of(code: &Code) -> Kind
    ensures { result ≡ kind_of_tree (code_tree code.now) }
{
    match code {
        Code::Lit(_) => Kind::Number,
        Code::Truth(_) => Kind::Truth,
        Code::Var(_) => Kind::Other,
        Code::SetOf(_) => Kind::Elements,
        Code::Tuple(_) => Kind::Other,
        Code::Sum(_) => Kind::Number,
        Code::Sub(_, _) => Kind::Number,
        Code::Mul(_, _) => Kind::Number,
        Code::Neg(_) => Kind::Number,
        Code::Div { .. } => Kind::Number,
        Code::Mod { .. } => Kind::Number,
        Code::Min(_) => Kind::Number,
        Code::Max(_) => Kind::Number,
        Code::Compare { .. } => Kind::Truth,
        Code::Divides { .. } => Kind::Truth,
        Code::And(_, _) => Kind::Other,
        Code::Or(_, _) => Kind::Other,
        Code::Not(_) => Kind::Truth,
        Code::Union(_) => Kind::Elements,
        Code::Inter(_) => Kind::Elements,
        Code::Diff(_, _) => Kind::Elements,
        Code::Subset(_, _) => Kind::Truth,
        Code::Card(_) => Kind::Number,
        Code::Slice { .. } => Kind::Elements,
        Code::Fresh { .. } => Kind::Elements,
        Code::If { .. } => Kind::Other,
        Code::Let { .. } => Kind::Other,
        Code::Solve { .. } => Kind::Other,
    }
}

// Tables of texts, a text to a line. A text that begins with a blank is written behind its subject.

// What a report says, by `sentence_of`. The line of the kind that is reserved is empty.
pub const SENTENCES: [u8; 934] = *b"the report is of no known kind
this is no token of Plank
 is not expected here
 is missing here
 is missing after this statement
a name that begins with '@' can't stand here
a struct's fields must come before its methods
'*' can't stand in an import group: import it by itself
only a plain name can stand in an import group, not a path
this import group is empty
this import group has one name, so it needs no braces

'\\x' must be followed by two hexadecimal digits
 can't stand after a backslash: only n, r, t, 0, x, \\ and \" can
 is no hexadecimal digit
a hex string must have an even number of digits
a backslash can't be the last character of a string
 has no meaning outside of strings and comments
this number has a letter or a digit that can't be part of it
this string doesn't end on the line on which it begins
this comment is never closed: '*/' is missing
this string is never closed: a '\"' is missing
a name must follow '@'
";

// A token, by its kind.
pub const TOKENS: [u8; 644] = *b"';'
','
':'
'.'
'$'
'{'
'}'
'('
')'
'['
']'
'::'
'=>'
'='
'+'
'+%'
'-'
'-%'
'*'
'*%'
'/'
'+/'
'-/'
'</'
'>/'
'%'
'=='
'!='
'<'
'>'
'<='
'>='
'!'
'&&'
'||'
'&'
'|'
'^'
'~'
'<<'
'>>'
'if'
'else'
'fn'
'eager'
'let'
'mut'
'const'
'init'
'run'
'struct'
'tuple'
'return'
'comptime'
'inline'
'while'
'true'
'false'
'and'
'or'
'pub'
'use'
'as'
'match'
'Self'
a name
a name that begins with '@'
a number
a hexadecimal number
a binary number
a string
a hex string
a blank
a line comment
a block comment
an '@' without a name
an invalid character
a malformed number
a string over several lines
an unclosed comment
an unclosed string
the end of the script
";

// A node's kind, by its number: `NodeKind` of cst/mod.rs.
pub const NODES: [u8; 543] = *b"File
ConstDecl
ImportDecl
ImportAsDecl
ImportGroupDecl
ImportGroupItem
InitBlock
RunBlock
ComptimeBlock
Block
LetStmt
ReturnStmt
AssignStmt
WhileStmt
InlineWhileStmt
BinaryExpr
UnaryExpr
ParenExpr
CallExpr
MemberExpr
StructDef
StructBody
StructLit
TupleType
TupleLit
If
ElseIfBranchList
ElseIfBranch
Match
MatchArmList
MatchArm
MatchFallbackArm
BoolLiteral
NumLiteral
StringLiteral
SelfType
Identifier
BuiltinName
FnDef
MethodDef
ParamList
Parameter
ComptimeParameter
ParamAnyType
Operator
StatementsList
ImportPath
FieldDef
FieldAssign
Error
";

// Why a text is refused, by the refusal's number.
pub const REFUSALS: [u8; 364] = *b"it is not known why
it is in another encoding than UTF-8: no character starts
the text is longer than 65536 bytes
it is nested too deep
it has too many tokens
it has too many nodes
its numbers and strings are too long
it has too many reports
its node words were altered
it is in another encoding than UTF-8: a character is broken
it was cut off inside a character
";

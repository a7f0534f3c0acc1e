// That the definitions of a layout file in the profile say what the sentences of `dk_form_paged` say, and that these leave one outcome. There is no code here.
#![tactic(auto)]

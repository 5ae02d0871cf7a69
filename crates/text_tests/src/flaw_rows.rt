// Rules that break a condition, with rules close to them, and their answers, as the tests write them.

// Ids, actions and ranges of numbers (S3 User Guide, "Lifecycle configuration elements").
pub(crate) const RANGE_ROWS: &[(&str, &str)] = &[
    // Ids are filled in before they are compared; they differ by case.
    (
        ",'Expiration':{'Days':1}},{'ID':'rule-1','Status':'Disabled'",
        "DoubleId 2",
    ),
    (
        ",'ID':'rule-2','Expiration':{'Days':1}},{'Status':'Disabled'",
        "DoubleId 2",
    ),
    (
        ",'ID':'rule-2','Expiration':{'Days':1}},{'ID':'','Status':'Disabled'",
        "DoubleId 2",
    ),
    (
        ",'ID':'a','Expiration':{'Days':1}},{'ID':'b','Status':'Enabled','Expiration':{'Days':1}},\
         {'ID':'a','Status':'Enabled'",
        "DoubleId 3",
    ),
    (
        ",'ID':'a','Expiration':{'Days':1}},{'ID':'A','Status':'Enabled','Expiration':{'Days':1}},\
         {'Status':'Enabled'",
        "NoAction 3",
    ),
    (
        ",'ID':'a','Expiration':{'Days':1}},{'Status':'Enabled','Expiration':{'Days':1}",
        "'Expiration':{'Days':1},'Filter':{'Prefix':''},'ID':'a','Status':'Enabled'},\
         {'Expiration':{'Days':1},'Filter':{'Prefix':''},'ID':'rule-2','Status':'Enabled'",
    ),
    // No action is left.
    ("'Status':'Enabled'", "NoAction 1"),
    (",'Expiration':{}", "NoAction 1"),
    (
        ",'Expiration':{'ExpiredObjectDeleteMarker':false}",
        "NoAction 1",
    ),
    (
        ",'Transitions':[],'NoncurrentVersionTransitions':[]",
        "NoAction 1",
    ),
    (
        ",'Expiration':{'Days':1}},{'Status':'Disabled'",
        "NoAction 2",
    ),
    (
        ",'Expiration':{},'AbortIncompleteMultipartUpload':{'DaysAfterInitiation':1}",
        "'AbortIncompleteMultipartUpload':{'DaysAfterInitiation':1},'Filter':{'Prefix':''},\
         'ID':'rule-1','Status':'Enabled'",
    ),
    (
        ",'Filter':{'Tag':{'Key':'a','Value':''}},'Expiration':{'Days':1,\
         'ExpiredObjectDeleteMarker':false}",
        "'Expiration':{'Days':1},'Filter':{'Tag':{'Key':'a','Value':''}},'ID':'rule-1',\
         'Status':'Enabled'",
    ),
    // Tags and bounds that are out of range.
    (
        ",'Filter':{'Tag':{'Key':'','Value':'b'}},'Expiration':{'Days':1}",
        "BadFilter 1",
    ),
    (
        ",'Filter':{'And':{'Tags':[{'Key':'a','Value':'b'},{'Key':'a','Value':'c'}]}},\
         'Expiration':{'Days':1}",
        "BadFilter 1",
    ),
    (
        ",'Filter':{'And':{'ObjectSizeGreaterThan':4,'ObjectSizeLessThan':4}},'Expiration':{'Days':1}",
        "BadSizeRange 1",
    ),
    (
        ",'Filter':{'And':{'ObjectSizeGreaterThan':5,'ObjectSizeLessThan':4}},'Expiration':{'Days':1}",
        "BadSizeRange 1",
    ),
    (
        ",'Filter':{'And':{'ObjectSizeGreaterThan':4,'ObjectSizeLessThan':5}},'Expiration':{'Days':1}",
        "'Expiration':{'Days':1},'Filter':{'And':{'ObjectSizeGreaterThan':4,'ObjectSizeLessThan':5}},\
         'ID':'rule-1','Status':'Enabled'",
    ),
    (
        ",'Filter':{'ObjectSizeGreaterThan':0},'Expiration':{'Days':1}",
        "'Expiration':{'Days':1},'Filter':{'ObjectSizeGreaterThan':0},'ID':'rule-1','Status':'Enabled'",
    ),
    (
        ",'Filter':{'ObjectSizeGreaterThan':5497558138880},'Expiration':{'Days':1}",
        "'Expiration':{'Days':1},'Filter':{'ObjectSizeGreaterThan':5497558138880},'ID':'rule-1',\
         'Status':'Enabled'",
    ),
    (
        ",'Filter':{'ObjectSizeGreaterThan':5497558138881},'Expiration':{'Days':1}",
        "BadSizeRange 1",
    ),
    (
        ",'Filter':{'ObjectSizeLessThan':5497558138880},'Expiration':{'Days':1}",
        "'Expiration':{'Days':1},'Filter':{'ObjectSizeLessThan':5497558138880},'ID':'rule-1',\
         'Status':'Enabled'",
    ),
    (
        ",'Filter':{'ObjectSizeLessThan':5497558138881},'Expiration':{'Days':1}",
        "BadSizeRange 1",
    ),
    (
        ",'Filter':{'ObjectSizeGreaterThan':18446744073709551615},'Expiration':{'Days':1}",
        "BadSizeRange 1",
    ),
    // Numbers of days, and of newer versions.
    (",'Expiration':{'Days':0}", "BadDays 1"),
    (
        ",'Expiration':{'Days':1}",
        "'Expiration':{'Days':1},'Filter':{'Prefix':''},'ID':'rule-1','Status':'Enabled'",
    ),
    (
        ",'Expiration':{'Days':2147483647}",
        "'Expiration':{'Days':2147483647},'Filter':{'Prefix':''},'ID':'rule-1','Status':'Enabled'",
    ),
    (",'Expiration':{'Days':2147483648}", "BadDays 1"),
    (",'Expiration':{'Days':4294967295}", "BadDays 1"),
    (
        ",'NoncurrentVersionExpiration':{'NoncurrentDays':0}",
        "BadDays 1",
    ),
    (
        ",'NoncurrentVersionExpiration':{'NoncurrentDays':2147483648}",
        "BadDays 1",
    ),
    (
        ",'NoncurrentVersionExpiration':{'NoncurrentDays':2147483647}",
        "'Filter':{'Prefix':''},'ID':'rule-1',\
         'NoncurrentVersionExpiration':{'NoncurrentDays':2147483647},'Status':'Enabled'",
    ),
    (
        ",'AbortIncompleteMultipartUpload':{'DaysAfterInitiation':0}",
        "BadDays 1",
    ),
    (
        ",'AbortIncompleteMultipartUpload':{'DaysAfterInitiation':2147483648}",
        "BadDays 1",
    ),
    (
        ",'AbortIncompleteMultipartUpload':{'DaysAfterInitiation':2147483647}",
        "'AbortIncompleteMultipartUpload':{'DaysAfterInitiation':2147483647},'Filter':{'Prefix':''},\
         'ID':'rule-1','Status':'Enabled'",
    ),
    (
        ",'Transitions':[{'Days':0,'StorageClass':'GLACIER'}]",
        "'Filter':{'Prefix':''},'ID':'rule-1','Status':'Enabled','Transitions':[{'Days':0,\
         'StorageClass':'GLACIER'}]",
    ),
    (
        ",'Transitions':[{'Days':2147483647,'StorageClass':'GLACIER'}]",
        "'Filter':{'Prefix':''},'ID':'rule-1','Status':'Enabled','Transitions':[{'Days':2147483647,\
         'StorageClass':'GLACIER'}]",
    ),
    (
        ",'Transitions':[{'Days':2147483648,'StorageClass':'GLACIER'}]",
        "BadDays 1",
    ),
    (
        ",'NoncurrentVersionTransitions':[{'NoncurrentDays':0,'StorageClass':'GLACIER_IR'}]",
        "'Filter':{'Prefix':''},'ID':'rule-1','NoncurrentVersionTransitions':[{'NoncurrentDays':0,\
         'StorageClass':'GLACIER_IR'}],'Status':'Enabled'",
    ),
    (
        ",'NoncurrentVersionTransitions':[{'NoncurrentDays':2147483648,'StorageClass':'GLACIER_IR'}]",
        "BadDays 1",
    ),
    (
        ",'NoncurrentVersionExpiration':{'NoncurrentDays':1,'NewerNoncurrentVersions':0}",
        "BadNewer 1",
    ),
    (
        ",'NoncurrentVersionExpiration':{'NoncurrentDays':1,'NewerNoncurrentVersions':101}",
        "BadNewer 1",
    ),
    (
        ",'NoncurrentVersionExpiration':{'NoncurrentDays':1,'NewerNoncurrentVersions':1}",
        "'Filter':{'Prefix':''},'ID':'rule-1',\
         'NoncurrentVersionExpiration':{'NewerNoncurrentVersions':1,'NoncurrentDays':1},\
         'Status':'Enabled'",
    ),
    (
        ",'NoncurrentVersionExpiration':{'NoncurrentDays':1,'NewerNoncurrentVersions':100}",
        "'Filter':{'Prefix':''},'ID':'rule-1',\
         'NoncurrentVersionExpiration':{'NewerNoncurrentVersions':100,'NoncurrentDays':1},\
         'Status':'Enabled'",
    ),
    (
        ",'NoncurrentVersionTransitions':[{'NoncurrentDays':1,'StorageClass':'GLACIER',\
         'NewerNoncurrentVersions':0}]",
        "BadNewer 1",
    ),
    (
        ",'NoncurrentVersionTransitions':[{'NoncurrentDays':1,'StorageClass':'GLACIER',\
         'NewerNoncurrentVersions':101}]",
        "BadNewer 1",
    ),
    (
        ",'NoncurrentVersionTransitions':[{'NoncurrentDays':1,'StorageClass':'GLACIER',\
         'NewerNoncurrentVersions':100}]",
        "'Filter':{'Prefix':''},'ID':'rule-1',\
         'NoncurrentVersionTransitions':[{'NewerNoncurrentVersions':100,'NoncurrentDays':1,\
         'StorageClass':'GLACIER'}],'Status':'Enabled'",
    ),
];

// When objects move or expire, and which flaw comes first (S3 User Guide, "Transitioning objects using Amazon S3
// Lifecycle").
pub(crate) const ORDER_ROWS: &[(&str, &str)] = &[
    // When objects are moved, and when they expire.
    (
        ",'Transitions':[{'Days':29,'StorageClass':'STANDARD_IA'}]",
        "EarlyInfrequent 1",
    ),
    (
        ",'Transitions':[{'Days':29,'StorageClass':'ONEZONE_IA'}]",
        "EarlyInfrequent 1",
    ),
    (
        ",'NoncurrentVersionTransitions':[{'NoncurrentDays':29,'StorageClass':'STANDARD_IA'}]",
        "EarlyInfrequent 1",
    ),
    (
        ",'NoncurrentVersionTransitions':[{'NoncurrentDays':29,'StorageClass':'ONEZONE_IA'}]",
        "EarlyInfrequent 1",
    ),
    (
        ",'Transitions':[{'Days':30,'StorageClass':'ONEZONE_IA'}]",
        "'Filter':{'Prefix':''},'ID':'rule-1','Status':'Enabled','Transitions':[{'Days':30,\
         'StorageClass':'ONEZONE_IA'}]",
    ),
    (
        ",'NoncurrentVersionTransitions':[{'NoncurrentDays':30,'StorageClass':'STANDARD_IA'}]",
        "'Filter':{'Prefix':''},'ID':'rule-1','NoncurrentVersionTransitions':[{'NoncurrentDays':30,\
         'StorageClass':'STANDARD_IA'}],'Status':'Enabled'",
    ),
    (
        ",'Transitions':[{'Date':'2024-01-01','StorageClass':'STANDARD_IA'}]",
        "'Filter':{'Prefix':''},'ID':'rule-1','Status':'Enabled',\
         'Transitions':[{'Date':'2024-01-01T00:00:00.000Z','StorageClass':'STANDARD_IA'}]",
    ),
    (
        ",'Transitions':[{'Days':2,'StorageClass':'GLACIER'},{'Days':1,'StorageClass':'GLACIER_IR'}],\
         'Expiration':{'Days':2}",
        "ExpiresTooSoon 1",
    ),
    (
        ",'Transitions':[{'Days':2,'StorageClass':'GLACIER'}],'Expiration':{'Days':3}",
        "'Expiration':{'Days':3},'Filter':{'Prefix':''},'ID':'rule-1','Status':'Enabled',\
         'Transitions':[{'Days':2,'StorageClass':'GLACIER'}]",
    ),
    (
        ",'NoncurrentVersionTransitions':[{'NoncurrentDays':2,'StorageClass':'GLACIER'}],\
         'NoncurrentVersionExpiration':{'NoncurrentDays':2}",
        "ExpiresTooSoon 1",
    ),
    (
        ",'NoncurrentVersionTransitions':[{'NoncurrentDays':2,'StorageClass':'GLACIER'}],\
         'NoncurrentVersionExpiration':{'NoncurrentDays':3}",
        "'Filter':{'Prefix':''},'ID':'rule-1','NoncurrentVersionExpiration':{'NoncurrentDays':3},\
         'NoncurrentVersionTransitions':[{'NoncurrentDays':2,'StorageClass':'GLACIER'}],\
         'Status':'Enabled'",
    ),
    (
        ",'Transitions':[{'Date':'2024-01-01','StorageClass':'GLACIER'}],'Expiration':{'Days':1}",
        "'Expiration':{'Days':1},'Filter':{'Prefix':''},'ID':'rule-1','Status':'Enabled',\
         'Transitions':[{'Date':'2024-01-01T00:00:00.000Z','StorageClass':'GLACIER'}]",
    ),
    (
        ",'Transitions':[{'Days':2,'StorageClass':'GLACIER'}],'Expiration':{'Date':'2024-01-01'}",
        "'Expiration':{'Date':'2024-01-01T00:00:00.000Z'},'Filter':{'Prefix':''},'ID':'rule-1',\
         'Status':'Enabled','Transitions':[{'Days':2,'StorageClass':'GLACIER'}]",
    ),
    (
        ",'Transitions':[{'Days':2,'StorageClass':'GLACIER'},{'Date':'2024-01-01',\
         'StorageClass':'DEEP_ARCHIVE'}]",
        "MixedDates 1",
    ),
    // The order of transitions.
    (
        ",'Transitions':[{'Days':30,'StorageClass':'STANDARD'}]",
        "BadOrder 1",
    ),
    (
        ",'NoncurrentVersionTransitions':[{'NoncurrentDays':30,'StorageClass':'STANDARD'}]",
        "BadOrder 1",
    ),
    (
        ",'Transitions':[{'Days':30,'StorageClass':'STANDARD_IA'},{'Days':30,'StorageClass':'GLACIER'}]",
        "BadOrder 1",
    ),
    (
        ",'Transitions':[{'Days':31,'StorageClass':'STANDARD_IA'},{'Days':30,'StorageClass':'GLACIER'}]",
        "BadOrder 1",
    ),
    (
        ",'Transitions':[{'Days':30,'StorageClass':'GLACIER'},{'Days':31,'StorageClass':'GLACIER'}]",
        "BadOrder 1",
    ),
    (
        ",'Transitions':[{'Days':30,'StorageClass':'STANDARD_IA'},{'Days':40,'StorageClass':'GLACIER'},\
         {'Days':40,'StorageClass':'DEEP_ARCHIVE'}]",
        "BadOrder 1",
    ),
    (
        ",'NoncurrentVersionTransitions':[{'NoncurrentDays':30,'StorageClass':'STANDARD_IA'},\
         {'NoncurrentDays':30,'StorageClass':'GLACIER'}]",
        "BadOrder 1",
    ),
    (
        ",'Transitions':[{'Date':'2024-01-01','StorageClass':'GLACIER_IR'},\
         {'Date':'2024-01-01T00:00:00Z','StorageClass':'GLACIER'}]",
        "BadOrder 1",
    ),
    (
        ",'Transitions':[{'Days':31,'StorageClass':'GLACIER'},{'Days':30,'StorageClass':'STANDARD_IA'}]",
        "'Filter':{'Prefix':''},'ID':'rule-1','Status':'Enabled','Transitions':[{'Days':31,\
         'StorageClass':'GLACIER'},{'Days':30,'StorageClass':'STANDARD_IA'}]",
    ),
    (
        ",'Transitions':[{'Date':'2024-01-01','StorageClass':'GLACIER_IR'},{'Date':'2024-01-02',\
         'StorageClass':'GLACIER'}]",
        "'Filter':{'Prefix':''},'ID':'rule-1','Status':'Enabled',\
         'Transitions':[{'Date':'2024-01-01T00:00:00.000Z','StorageClass':'GLACIER_IR'},\
         {'Date':'2024-01-02T00:00:00.000Z','StorageClass':'GLACIER'}]",
    ),
    // Markers and aborts under a filter, and expirations.
    (
        ",'Filter':{'Tag':{'Key':'a','Value':'b'}},'Expiration':{'ExpiredObjectDeleteMarker':true}",
        "MarkerRule 1",
    ),
    (
        ",'Filter':{'ObjectSizeGreaterThan':0},'Expiration':{'ExpiredObjectDeleteMarker':true}",
        "MarkerRule 1",
    ),
    (
        ",'Filter':{'ObjectSizeLessThan':9},'Expiration':{'ExpiredObjectDeleteMarker':true}",
        "MarkerRule 1",
    ),
    (
        ",'Expiration':{'ExpiredObjectDeleteMarker':true,'Days':1}",
        "MarkerRule 1",
    ),
    (
        ",'Expiration':{'ExpiredObjectDeleteMarker':true,'Date':'2024-01-01'}",
        "MarkerRule 1",
    ),
    (
        ",'Prefix':'a','Expiration':{'ExpiredObjectDeleteMarker':true}",
        "'Expiration':{'ExpiredObjectDeleteMarker':true},'Filter':{'Prefix':'a'},'ID':'rule-1',\
         'Status':'Enabled'",
    ),
    (
        ",'Filter':{'Tag':{'Key':'a','Value':'b'}},\
         'AbortIncompleteMultipartUpload':{'DaysAfterInitiation':1}",
        "AbortFilter 1",
    ),
    (
        ",'Filter':{'ObjectSizeGreaterThan':0},\
         'AbortIncompleteMultipartUpload':{'DaysAfterInitiation':1}",
        "AbortFilter 1",
    ),
    (
        ",'Filter':{'ObjectSizeLessThan':5},'AbortIncompleteMultipartUpload':{'DaysAfterInitiation':1}",
        "AbortFilter 1",
    ),
    (
        ",'Filter':{'And':{'Prefix':'a','Tags':[{'Key':'a','Value':'b'}]}},\
         'AbortIncompleteMultipartUpload':{'DaysAfterInitiation':1}",
        "AbortFilter 1",
    ),
    (
        ",'Prefix':'a','AbortIncompleteMultipartUpload':{'DaysAfterInitiation':1}",
        "'AbortIncompleteMultipartUpload':{'DaysAfterInitiation':1},'Filter':{'Prefix':'a'},\
         'ID':'rule-1','Status':'Enabled'",
    ),
    (
        ",'Expiration':{'Days':1,'Date':'2024-01-01'}",
        "BadExpiration 1",
    ),
    // Two flaws of one rule, and flaws of two rules: the first one counts.
    (
        ",'Expiration':{'Days':1}},{'ID':'rule-1','Status':'Enabled'",
        "DoubleId 2",
    ),
    (",'Filter':{'Tag':{'Key':'','Value':'b'}}", "NoAction 1"),
    (
        ",'Filter':{'And':{'Tags':[{'Key':'','Value':''}],'ObjectSizeGreaterThan':5,\
         'ObjectSizeLessThan':5}},'Expiration':{'Days':1}",
        "BadFilter 1",
    ),
    (
        ",'Filter':{'And':{'ObjectSizeGreaterThan':5,'ObjectSizeLessThan':5}},'Expiration':{'Days':0}",
        "BadSizeRange 1",
    ),
    (
        ",'NoncurrentVersionExpiration':{'NoncurrentDays':0,'NewerNoncurrentVersions':0}",
        "BadDays 1",
    ),
    (
        ",'NoncurrentVersionTransitions':[{'NoncurrentDays':29,'StorageClass':'STANDARD_IA',\
         'NewerNoncurrentVersions':0}]",
        "BadNewer 1",
    ),
    (
        ",'Transitions':[{'Days':29,'StorageClass':'STANDARD_IA'}],'Expiration':{'Days':29}",
        "EarlyInfrequent 1",
    ),
    (
        ",'Transitions':[{'Days':2,'StorageClass':'GLACIER'},{'Date':'2024-01-01',\
         'StorageClass':'DEEP_ARCHIVE'}],'Expiration':{'Days':2}",
        "ExpiresTooSoon 1",
    ),
    (
        ",'Transitions':[{'Days':2,'StorageClass':'GLACIER'},{'Date':'2024-01-01',\
         'StorageClass':'GLACIER'}]",
        "MixedDates 1",
    ),
    (
        ",'Transitions':[{'Days':2,'StorageClass':'STANDARD'}],'Expiration':{'Days':3,\
         'ExpiredObjectDeleteMarker':true}",
        "BadOrder 1",
    ),
    (
        ",'Filter':{'Tag':{'Key':'a','Value':'b'}},'Expiration':{'ExpiredObjectDeleteMarker':true},\
         'AbortIncompleteMultipartUpload':{'DaysAfterInitiation':1}",
        "MarkerRule 1",
    ),
    (
        ",'Expiration':{'Days':1,'Date':'2024-01-01','ExpiredObjectDeleteMarker':true}",
        "MarkerRule 1",
    ),
    (
        ",'Filter':{'Tag':{'Key':'a','Value':'b'}},\
         'AbortIncompleteMultipartUpload':{'DaysAfterInitiation':1},'Expiration':{'Days':1,\
         'Date':'2024-01-01'}",
        "AbortFilter 1",
    ),
    (
        ",'Expiration':{'Days':1,'Date':'2024-01-01'}},{'Status':'Enabled'",
        "BadExpiration 1",
    ),
    (
        ",'Expiration':{'Days':1}},{'Status':'Enabled','Filter':{'Tag':{'Key':'a','Value':'b'}},\
         'AbortIncompleteMultipartUpload':{'DaysAfterInitiation':1}},{'Status':'Enabled'",
        "AbortFilter 2",
    ),
];

// How rules are spelled, and how many tags a filter has.
pub(crate) const SPELLING_ROWS: &[(&str, &str)] = &[
    // The spelling of filters.
    (
        "'Status':'Disabled','Expiration':{'Days':1}",
        "'Expiration':{'Days':1},'Filter':{'Prefix':''},'ID':'rule-1','Status':'Disabled'",
    ),
    (
        "'Status':'Disabled','Expiration':{'Days':1},'Filter':{}",
        "'Expiration':{'Days':1},'Filter':{'Prefix':''},'ID':'rule-1','Status':'Disabled'",
    ),
    (
        "'Status':'Disabled','Expiration':{'Days':1},'Filter':{'And':{}},'ID':''",
        "'Expiration':{'Days':1},'Filter':{'Prefix':''},'ID':'rule-1','Status':'Disabled'",
    ),
    (
        "'Status':'Disabled','Expiration':{'Days':1},'Filter':{'And':{'Tags':[]}}",
        "'Expiration':{'Days':1},'Filter':{'Prefix':''},'ID':'rule-1','Status':'Disabled'",
    ),
    (
        "'Status':'Disabled','Expiration':{'Days':1},'Prefix':'a/'",
        "'Expiration':{'Days':1},'Filter':{'Prefix':'a/'},'ID':'rule-1','Status':'Disabled'",
    ),
    (
        "'Status':'Disabled','Expiration':{'Days':1},'Filter':{'Prefix':'a/'}",
        "'Expiration':{'Days':1},'Filter':{'Prefix':'a/'},'ID':'rule-1','Status':'Disabled'",
    ),
    (
        "'Status':'Disabled','Expiration':{'Days':1},'Filter':{'And':{'Prefix':'a/'}}",
        "'Expiration':{'Days':1},'Filter':{'Prefix':'a/'},'ID':'rule-1','Status':'Disabled'",
    ),
    (
        "'Status':'Disabled','Expiration':{'Days':1},'Filter':{'And':{'Prefix':'','Tags':[{'Value':'1',\
         'Key':'b'}]}}",
        "'Expiration':{'Days':1},'Filter':{'Tag':{'Key':'b','Value':'1'}},'ID':'rule-1',\
         'Status':'Disabled'",
    ),
    (
        "'Status':'Disabled','Expiration':{'Days':1},'Filter':{'And':{'Tags':[{'Key':'b','Value':'1'},\
         {'Key':'a','Value':''}]}}",
        "'Expiration':{'Days':1},'Filter':{'And':{'Tags':[{'Key':'b','Value':'1'},{'Key':'a',\
         'Value':''}]}},'ID':'rule-1','Status':'Disabled'",
    ),
    (
        "'Status':'Disabled','Expiration':{'Days':1},'Filter':{'And':{'ObjectSizeLessThan':9,'Tags':[],\
         'ObjectSizeGreaterThan':0}}",
        "'Expiration':{'Days':1},'Filter':{'And':{'ObjectSizeGreaterThan':0,'ObjectSizeLessThan':9}},\
         'ID':'rule-1','Status':'Disabled'",
    ),
    (
        "'Status':'Disabled','Expiration':{'Days':1},'Filter':{'And':{'ObjectSizeLessThan':9}}",
        "'Expiration':{'Days':1},'Filter':{'ObjectSizeLessThan':9},'ID':'rule-1','Status':'Disabled'",
    ),
    (
        "'Status':'Disabled','Expiration':{'Days':1},'Filter':{'And':{'ObjectSizeGreaterThan':9}}",
        "'Expiration':{'Days':1},'Filter':{'ObjectSizeGreaterThan':9},'ID':'rule-1','Status':'Disabled'",
    ),
    // Escapes in texts.
    (
        "'Status':'Disabled','Expiration':{'Days':1},'ID':'\\u0041\\u00e9\\ud83d\\ude00\\/'",
        "'Expiration':{'Days':1},'Filter':{'Prefix':''},'ID':'Aé😀/','Status':'Disabled'",
    ),
    (
        "'Status':'Disabled','Expiration':{'Days':1},'ID':'\\b\\t\\n\\f\\r\\\\\\u001F\\u007f\\u0000'",
        "'Expiration':{'Days':1},'Filter':{'Prefix':''},'ID':'\\b\\t\\n\\f\\r\\\\\\u001f\x7f\\u0000',\
         'Status':'Disabled'",
    ),
    (
        "'Status':'Disabled','Expiration':{'Days':1},'ID':'\\u005c\\u0022'",
        "'Expiration':{'Days':1},'Filter':{'Prefix':''},'ID':'\\\\\\'','Status':'Disabled'",
    ),
    (
        "'Status':'Disabled','Expiration':{'Days':1},'Prefix':'\\'\\n'",
        "'Expiration':{'Days':1},'Filter':{'Prefix':'\\'\\n'},'ID':'rule-1','Status':'Disabled'",
    ),
    // Ten tags, and eleven.
    (
        ",'Expiration':{'Days':0},'Filter':{'And':{'Tags':[{'Key':'0','Value':''},{'Key':'1',\
         'Value':''},{'Key':'2','Value':''},{'Key':'3','Value':''},{'Key':'4','Value':''},{'Key':'5',\
         'Value':''},{'Key':'6','Value':''},{'Key':'7','Value':''},{'Key':'8','Value':''},{'Key':'9',\
         'Value':''}]}}",
        "BadDays 1",
    ),
    (
        ",'Expiration':{'Days':0},'Filter':{'And':{'Tags':[{'Key':'0','Value':''},{'Key':'1',\
         'Value':''},{'Key':'2','Value':''},{'Key':'3','Value':''},{'Key':'4','Value':''},{'Key':'5',\
         'Value':''},{'Key':'6','Value':''},{'Key':'7','Value':''},{'Key':'8','Value':''},{'Key':'9',\
         'Value':''},{'Key':'a','Value':''}]}}",
        "BadFilter 1",
    ),
];
